//! Certificates of schedules: of each goal the determined derivation, by Fourier's and Motzkin's elimination with
//! divisions that round, of which the lines that it needs are written.
//! Promises exactly that text, or the first goal without a derivation; and that the checker accepts it.
#![tactic(auto)]

mod certificate_laws;
mod certificate_lines;
mod certifying;
mod derivation_laws;
mod determined;
mod dividing;
mod eliminating;
mod needed;
mod places;
mod rows;
mod schedule_items;
mod stop;

pub use certificate_laws::certificates_are_accepted;
pub use certifying::certify_plan;
pub use derivation_laws::derivations_are_accepted;
pub use determined::derivation;
pub use stop::CertifyStop;

// Passed on: lines and texts that commands tell.
pub use report_text::{
    DataRefusal, FaultKind, KeptLine, Outside, Refusal, RefusalKind, Status, UnexpandedLine,
    deps_text, edges_text, kept_text, schedule_text, status_line, tiles_text, uncertified_text,
    unexpanded_text, waves_edges_text, waves_reduce_text,
};
