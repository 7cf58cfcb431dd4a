//! The text of a certificate, written and read.
#![tactic(auto)]

mod error;
mod fact_line;
mod head;
mod laws;
mod line;
mod numbers;
mod reading;
mod reason;
mod writing;

pub use error::CertificateError;
pub use laws::one_certificate;
pub use reading::read_certificate;
pub use writing::write_certificate;
