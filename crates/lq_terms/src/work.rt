//! What paid work is done with.

use crate::bank::Bank;
use crate::budget::Ticks;

/// A bank and a budget, lent for paid work.
#[derive(Drop)]
pub struct Work<'w, 'b> {
    /// Where the terms lie.
    pub bank: &'w mut Bank<'b>,
    /// What the work is paid with.
    pub ticks: &'w mut Ticks,
}
