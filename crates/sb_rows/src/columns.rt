//! The balances of all customers, by place.
ghost use Rattle.std.specs.Prelude.{◌≡◌, ◌<◌, ◌++◌, [], ◌∷◌, length, pos, ◌≤ℤ◌, Some, slice_get, slice_set, IfOk, OnOk, OnErr};
ghost use Rattle.sb_rows.specs.Balances.{Balances, IsBalances};

use sb_amount::Cents;
use std::alloc::{AllocError, Global};
use std::marker::Model;

/// The greatest number of customers that a bank has.
pub const CUSTOMERS: usize = 65_536;

/// The savings and checking balances of all customers by place, in cents.
#[derive(Debug, Drop)]
pub struct Columns {
    savings: Vec<i64>,
    checking: Vec<i64>,
}

impl Model for Columns {
    ghost use Rattle.sb_rows.specs.Balances.{Balances, IsBalances};

    ghost Value = { Balances };

    ghost view = { λ c. record { savings = c.savings.items; checking = c.checking.items } };

    ghost invariant = { λ c. IsBalances (record { savings = c.savings.items; checking = c.checking.items }) };
}

impl Columns {
    /// The columns of a bank without customers.
    pub fn new(alloc: Global) -> Columns
        ensures { result ≡ record { savings = []; checking = [] } }
    {
        Columns {
            savings: Vec::new(alloc),
            checking: Vec::new(alloc),
        }
    }

    /// The columns with these balances, in cents.
    pub fn from_parts(savings: Vec<i64>, checking: Vec<i64>) -> Columns
        requires { IsBalances (record { savings = savings.items; checking = checking.items }) }
        ensures { result ≡ record { savings = savings.items; checking = checking.items } }
    {
        Columns { savings, checking }
    }

    /// The number of customers.
    #[inline]
    pub fn customers(&self) -> usize
        ensures value { result ≡ length self.now.savings }
        ensures valid { IsBalances self.now }
    {
        self.savings.len()
    }

    /// All savings balances, in cents.
    #[inline]
    pub fn savings(&self) -> &[i64]
        ensures { result.now ≡ self.now.savings }
    {
        &self.savings
    }

    /// All checking balances, in cents.
    #[inline]
    pub fn checking(&self) -> &[i64]
        ensures { result.now ≡ self.now.checking }
    {
        &self.checking
    }

    /// The savings of the customer at a place.
    #[inline]
    pub fn savings_of(&self, place: u32) -> Cents
        requires { place < length self.now.savings }
        ensures value { slice_get self.now.savings place ≡ Some result }
        ensures not_negative { pos 0 ≤ℤ result }
    {
        Cents::new(self.savings[place as usize]).unwrap()
    }

    /// The checking balance of the customer at a place.
    #[inline]
    pub fn checking_of(&self, place: u32) -> Cents
        requires { place < length self.now.savings }
        ensures { slice_get self.now.checking place ≡ Some result }
    {
        Cents::new(self.checking[place as usize]).unwrap()
    }

    /// Replaces the savings of the customer at a place.
    #[inline]
    pub fn set_savings(&mut self, place: u32, amount: Cents)
        requires place { place < length self.old.savings }
        requires not_negative { pos 0 ≤ℤ amount }
        ensures { self.new ≡ record self.old { savings = slice_set self.old.savings place amount } }
    {
        self.savings[place as usize] = amount.value();
    }

    /// Replaces the checking balance of the customer at a place.
    #[inline]
    pub fn set_checking(&mut self, place: u32, amount: Cents)
        requires { place < length self.old.savings }
        ensures { self.new ≡ record self.old { checking = slice_set self.old.checking place amount } }
    {
        self.checking[place as usize] = amount.value();
    }

    /// Appends the balances of one more customer. If memory is refused, nothing changes.
    pub fn push(&mut self, savings: Cents, checking: Cents) -> Result<(), AllocError>
        requires room { length self.old.savings < CUSTOMERS }
        requires not_negative { pos 0 ≤ℤ savings }
        ensures ok { OnOk result (self.new ≡ record {
          savings = self.old.savings ++ savings ∷ [];
          checking = self.old.checking ++ checking ∷ [];
        }) }
        ensures err { OnErr result (self.new ≡ self.old) }
        ensures valid { IsBalances self.new }
    {
        self.savings.reserve(1).and(self.checking.reserve(1))?;
        self.savings.push_reserved(savings.value());
        self.checking.push_reserved(checking.value());
        Ok(())
    }

    /// A copy of the balances. Fails if memory is refused.
    pub fn copy(&self) -> Result<Columns, AllocError>
        ensures { IfOk result (λ copy. copy ≡ self.now) }
    {
        Ok(Columns {
            savings: self.savings.clone()?,
            checking: self.checking.clone()?,
        })
    }
}
