//! Sessions: statements are prepared and executed over an appliance.
#![tactic(auto)]

mod order;
mod prepared;
mod select;
mod session;
mod settings;
mod statistics;
mod stop;

pub use pdw_answer::{Answer, Refusal, Table1};
pub use prepared::{Prepared, Want};
pub use session::Session;
pub use settings::{Settings, USUAL_BUDGET};
pub use stop::Stop;
