//! Certificates of plans, and certified texts, which carry a plan with its certificate.
#![tactic(auto)]

mod certifying;
mod fault;
mod groups;
mod in_order;
mod laws;
mod line_words;
mod reading;
mod spelled;
mod word_values;
mod writing;

pub use certifying::{certify, certify_gathered};
pub use fault::CertFault;
pub use groups::{Certified, CertifiedRows};
pub use laws::spelled_is_read;
pub use reading::{read_certified, read_certified_rows};
pub use writing::write_certified;
