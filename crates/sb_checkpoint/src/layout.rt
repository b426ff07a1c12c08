//! The layouts of a checkpoint: the offsets of its fields, and their sizes in bytes.
ghost use Rattle.std.specs.Prelude.{◌≡◌, option_map};
ghost use Rattle.sb_checkpoint.specs.inner.Layouts.{layout_of};
ghost use Rattle.sb_checkpoint.specs.Reading as spec;

/// The layout of a checkpoint. The first is only read, the second also keeps the opening total.
#[derive(Clone, Copy)]
pub(crate) enum Layout {
    First,
    Second,
}

/// The eight bytes at the front of a checkpoint: in the first layout, and in the second.
pub(crate) const MAGIC_FIRST: [u8; 8] = *b"SBCKPT01";

pub(crate) const MAGIC_SECOND: [u8; 8] = *b"SBCKPT02";

/// The offsets of the length and of the number of customers.
pub(crate) const LENGTH_AT: usize = 8;

pub(crate) const CUSTOMERS_AT: usize = 16;

/// The number of bytes before the first balance.
pub(crate) const HEAD: usize = 20;

/// The sizes of an amount and of a reply, in bytes.
pub(crate) const AMOUNT: usize = 8;

pub(crate) const REPLY: usize = 9;

/// The size of one customer's balances, in bytes.
pub(crate) const BALANCES: usize = 2 * AMOUNT;

/// The size of a checkpoint without customers and replies, in bytes: in the first layout, and in
/// the second.
pub(crate) const EMPTY_FIRST: usize = HEAD + AMOUNT;

pub(crate) const EMPTY_SECOND: usize = EMPTY_FIRST + AMOUNT;

impl Layout {
    /// The layout of bytes, by how they begin, however few there are. Bytes that begin both are
    /// taken as the first.
    #[tactic(auto, unfolding(crate::specs::Reading::stated_layout))]
    pub(crate) fn of(bytes: &[u8]) -> Option<Layout>
        ensures { option_map layout_of result ≡ spec.stated_layout bytes.now }
    {
        let front = &bytes[..MAGIC_FIRST.len().min(bytes.len())];
        if MAGIC_FIRST.starts_with(front) {
            Some(Layout::First)
        } else if MAGIC_SECOND.starts_with(front) {
            Some(Layout::Second)
        } else {
            None
        }
    }

    /// The size of a checkpoint without customers and replies, in bytes.
    pub(crate) fn empty_size(self) -> usize
        ensures { result ≡ spec.empty_size (layout_of self) }
    {
        match self {
            Layout::First => EMPTY_FIRST,
            Layout::Second => EMPTY_SECOND,
        }
    }
}
