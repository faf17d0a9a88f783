//! The threads of a host program give orders to schedulers, by the calls of FairThreads
//! (docs/EMBEDDING.md).
#![tactic(auto)]

mod call;
mod calls;
mod laws;
mod receipt;

pub use calls::{
    ft_scheduler_broadcast, ft_scheduler_broadcast_value, ft_scheduler_resume, ft_scheduler_stop,
    ft_scheduler_suspend, ft_thread_create,
};
pub use laws::{
    accepted_calls_are_kept, accepted_calls_stand_at_close, events_have_schedulers,
    joined_passes_keep_what_was_known,
};
pub use receipt::Receipt;
