//! Why a plan has no certificate.
use abs_step::Cond;
use fix_solver::SolveFault;
use flow_recover::Key;
use rank_nest::{Edge, Nest, RankFault};
use viper_word::Memory;

/// Why a plan has no certificate, or none was made (docs/METHOD.md, "What a refusal says").
#[derive(Drop)]
pub enum CertifyFault {
    /// This condition, of C1 to C7, fails at this key in every candidate.
    Undischarged(Key, Cond),

    /// These 65,537 keys, all different, stand in every candidate.
    Nodes(Vec<Key>),

    /// No variable ranks these edges, which are the first stuck component of the least solution.
    Unranked(Vec<Edge>),

    /// A number of the ranks passes its limit: the nest up to it.
    Large(Nest),

    /// Want of memory.
    Memory,
}

impl From<SolveFault> for CertifyFault {
    ghost use Rattle.std.specs.Prelude.{◌≡◌};
    ghost use Rattle.certifier.specs.Faults.{of_solve};

    ghost from_gives = { λ fault e. e ≡ of_solve fault };

    fn from(fault: SolveFault) -> CertifyFault {
        match fault {
            SolveFault::Undischarged(key, cond) => CertifyFault::Undischarged(key, cond),
            SolveFault::Nodes(keys) => CertifyFault::Nodes(keys),
            SolveFault::Memory => CertifyFault::Memory,
        }
    }
}

impl From<RankFault> for CertifyFault {
    ghost use Rattle.std.specs.Prelude.{◌≡◌};
    ghost use Rattle.certifier.specs.Faults.{of_rank};

    ghost from_gives = { λ fault e. e ≡ of_rank fault };

    fn from(fault: RankFault) -> CertifyFault {
        match fault {
            RankFault::Unranked(edges) => CertifyFault::Unranked(edges),
            RankFault::Large(nest) => CertifyFault::Large(nest),
            RankFault::Memory => CertifyFault::Memory,
        }
    }
}

impl From<Memory> for CertifyFault {
    ghost use Rattle.std.specs.Prelude.{◌≡◌};
    ghost use Rattle.certifier.specs.declared.fault.CertifyFault.TheVariants as faults;

    ghost from_gives = { λ _ e. e ≡ faults.Memory };

    fn from(_e: Memory) -> CertifyFault {
        CertifyFault::Memory
    }
}
