//! Certificates and their bytes: what a checker reads and a certifier writes.
//!
//! A certificate is a graph whose nodes have an address, a fact, successors and a rank; facts that
//! are equal are kept once. `read_cert` reads versions 1 and 2 and names the first rule that bytes
//! break; `write_cert` writes version 2. docs/FORMATS.md, "Certificates", has the layout.
#![tactic(auto)]

mod bare;
mod cert;
mod fact_bytes;
mod fault;
mod fields;
mod given;
mod laws;
mod limits;
mod places;
mod put;
mod rank;
mod read_facts;
mod read_nodes;
mod read_ranks;
mod read_values;
mod reading;
mod spelled;
mod spelled_val;
mod unread;
mod version;
mod writing;

pub use cert::{Cert, CertOf};
pub use fault::{CertFault, CertRule};
pub use laws::spellings_are_unique;
pub use limits::{MOST_FACTOR, MOST_NODES, MOST_RANK, MOST_SUCCESSORS};
pub use reading::read_cert;
pub use spelled::{SPELLED, Spelled};
pub use version::Version;
pub use writing::write_cert;

#[cfg(test)]
mod tests;
