//! Certificates of what happened in a history, and a checker of them by the definitions alone: it
//! knows no levels and no work lists.
#![tactic(auto)]

mod bases;
mod blocking;
mod certificates;
mod checking;
mod closing;
mod heads;
mod laws;
mod meeting;
mod periods;
mod replays;
mod sessions;
mod showing;
mod sides;
mod standing;
mod turning;

pub use blocking::Peaks;
pub use certificates::{Cert, Listing};
pub use checking::accept;
pub use laws::{accepted_is_the_model, priorities_are_low};
pub use meeting::met_in;
pub use standing::Standing;
pub use turning::turn;
