//! What a run gathers, in fixed memory.

use crate::types::PageEntry;
use basics::inline_list::InlineList;
use records::refusal::Refusal;

/// The refusals of a run: the first 64 of them.
pub(crate) type RefusalList = InlineList<Refusal, 64>;

/// The entries of a run, at most 128.
pub(crate) type EntryTable = InlineList<PageEntry, 128>;

/// The ranks of a run: those of at most 13 seats in each of at most 8 rounds.
pub(crate) type RankTable = InlineList<u8, 104>;
