use cert_format::Cert;
use memory_plan::Plan;

/// A certificate that was read, with the plan that it is judged over.
#[derive(Drop)]
pub struct Judged {
    pub plan: Plan,
    pub cert: Cert,
}
