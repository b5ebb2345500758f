//! The running value of an aggregate: what is kept of rows while they come and go one by one, so
//! that their count, sum, average, least or greatest number is known at each moment without looking
//! at them again. It knows neither versions nor valid times: who goes over time, in whatever way,
//! tells it which number comes and which goes.
#![tactic(auto)]

mod extreme;
mod far;
mod heap;
mod heaps;
mod lasting;
mod lasting_heap;
pub mod laws;
mod pile;
mod running;
mod touching;

pub use extreme::Extreme;
pub use running::Running;
pub use touching::add_touching;
