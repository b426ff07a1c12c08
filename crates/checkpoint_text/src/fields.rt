//! The bank that the bytes of a checkpoint state.
ghost use Rattle.std.specs.Prelude.{◌≡◌, ◌+◌, ◌*◌, ◌≤◌, length, take, drop, min};
ghost use Rattle.sb_checkpoint.specs.Checkpoint.{Layout, magic};
ghost use Rattle.sb_checkpoint.specs.Reading as spec;
ghost use Rattle.sb_checkpoint.specs.Reading.{stated_amount, stated_size};
ghost use Rattle.checkpoint_text.specs.Listing.{opening_in};

use sb_rows::CUSTOMERS;

/// How the second layout begins, which has the opening total.
const MAGIC_SECOND: [u8; 8] = *b"SBCKPT02";

/// The number of bytes before the first balance. The last four of them are the number of customers.
const HEAD: usize = 20;

const CUSTOMERS_AT: usize = 16;

/// The number of bytes before the opening total, in the second layout, of a bank without customers.
const OPENING_AT: usize = 28;

/// The sizes of an amount and of one customer's balances, in bytes.
const AMOUNT: usize = 8;

const BALANCES: usize = 2 * AMOUNT;

/// The bank that the bytes of a checkpoint state, which they may do wrongly.
#[derive(Clone, Copy)]
pub(crate) struct StatedBank {
    /// The number of customers, but at most as many as a bank may have.
    pub(crate) customers: usize,
    /// The opening total in cents, in the second layout.
    pub(crate) opening_total: Option<i64>,
}

impl StatedBank {
    /// The bank that bytes state. Of bytes that end before they have stated it, it is any.
    pub(crate) fn of(bytes: &[u8]) -> StatedBank
        ensures limit { result.customers ≤ CUSTOMERS }
        ensures customers { HEAD ≤ length bytes.now
            → result.customers ≡ min (spec.stated_customers bytes.now) CUSTOMERS }
        ensures opening_total { (layout : Layout) → HEAD ≤ length bytes.now → take 8 bytes.now ≡ magic layout
            → stated_size layout bytes.now ≤ length bytes.now
            → result.opening_total ≡ opening_in layout (spec.stated_opening bytes.now) }
    {
        if bytes.len() < HEAD {
            return StatedBank {
                customers: 0,
                opening_total: None,
            };
        }
        let customers = stated_customers(bytes);
        StatedBank {
            customers: (customers as usize).min(CUSTOMERS),
            opening_total: stated_opening(bytes, customers),
        }
    }
}

// The stated number of customers, however great.
#[tactic(auto, unfolding(sb_checkpoint::specs::Reading::stated_customers))]
fn stated_customers(bytes: &[u8]) -> u32
    requires { HEAD ≤ length bytes.now }
    ensures { result ≡ spec.stated_customers bytes.now }
{
    u32::from_be_bytes(*bytes[CUSTOMERS_AT..].first_chunk().unwrap())
}

// The stated opening total, if the bytes begin as the second layout does and reach so far.
fn stated_opening(bytes: &[u8], customers: u32) -> Option<i64>
    requires { customers ≡ spec.stated_customers bytes.now }
    ensures { (layout : Layout) → take 8 bytes.now ≡ magic layout → stated_size layout bytes.now ≤ length bytes.now
        → result ≡ opening_in layout (spec.stated_opening bytes.now) }
{
    let at = OPENING_AT + BALANCES * customers as usize;
    if bytes.starts_with(&MAGIC_SECOND) && at + AMOUNT <= bytes.len() {
        Some(amount_at(bytes, at))
    } else {
        None
    }
}

// The amount in the eight bytes from an offset on.
fn amount_at(bytes: &[u8], at: usize) -> i64
    requires { at + AMOUNT ≤ length bytes.now }
    ensures { result ≡ stated_amount (take 8 (drop at bytes.now)) }
{
    i64::from_be_bytes(*bytes[at..].first_chunk().unwrap())
}
