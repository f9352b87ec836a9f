//! The two accounts of a customer, and what they hold.
ghost use Rattle.std.specs.Prelude.{◌≡◌, ◌+◌, ◌<◌, ◌≤◌, ◌^◌, ◌⊎◌, IfNone, IfSome, Some};
ghost use Rattle.erm_accounts.specs.Accounts.{IsBalance, beside, raised, table_of};
ghost use Rattle.erm_tellers.specs.Denials.{IsUnreadable, MayNotAdd, MayNotTake};
ghost use Rattle.erm_tellers.specs.Tellers.{account_of};

use erm_model::Value;

/// One of the two accounts of a customer.
#[derive(Clone, Copy, Debug, PartialEq, Eq)]
pub enum Side {
    Current,
    Savings,
}

impl Side {
    /// The table that has the account, under the customer's number.
    pub fn table(self) -> u8
        ensures { result ≡ table_of (account_of self) }
    {
        match self {
            Side::Current => 0,
            Side::Savings => 1,
        }
    }

    /// The customer's other account.
    pub fn beside(self) -> Side
        ensures { account_of result ≡ beside (account_of self) }
    {
        match self {
            Side::Current => Side::Savings,
            Side::Savings => Side::Current,
        }
    }
}

/// The balance that a value keeps, with 2 ^ 63 added to it; or `None` where it isn't one of eight bytes.
pub fn balance_in(value: &Value) -> Option<u64>
    ensures some { IfSome result (λ balance. raised (Some value.now) ≡ balance) }
    ensures none { IfNone result (IsUnreadable (Some value.now)) }
{
    match <[u8; 8]>::try_from(value.as_slice()) {
        Ok(bytes) => Some(u64::from_be_bytes(bytes)),
        Err(_) => None,
    }
}

// The balance of an account, by what is kept: where nothing is, it is zero.
fn raised_in(value: &Option<Value>) -> Option<u64>
    ensures some { IfSome result (λ balance. raised value.now ≡ balance) }
    ensures none { IfNone result (IsUnreadable value.now) }
{
    match value {
        Some(value) => balance_in(value),
        None => Some(1 << 63),
    }
}

// The value that keeps a balance, with 2 ^ 63 added to it.
fn value_of(balance: u64) -> Value
    ensures balance { raised (Some result) ≡ balance }
    ensures readable { IsBalance (Some result) }
{
    Value::new(&balance.to_be_bytes()).unwrap()
}

// What is left of one balance after an amount is taken, or `None` where both together don't cover it, or this one would be too low to be kept.
fn lowered(own: u64, other: u64, amount: u64) -> Option<u64>
    ensures left { IfSome result (λ left. left + amount ≡ own) }
    ensures covered { IfSome result (λ left. 2 ^ 64 + amount ≤ own + other) }
    ensures none { IfNone result ((own < amount) ⊎ (own + other < 2 ^ 64 + amount)) }
{
    let left = own.checked_sub(amount)?;
    if other <= u64::MAX - left {
        return None;
    }
    Some(left)
}

/// What is kept of an account after an amount is taken from it, or `None` where what is kept of it and of the customer's other one doesn't allow it.
pub fn taken(own: &Option<Value>, other: &Option<Value>, amount: u64) -> Option<Value>
    ensures left { IfSome result (λ left. raised (Some left) + amount ≡ raised own.now) }
    ensures covered { IfSome result (λ left. 2 ^ 64 + amount ≤ raised own.now + raised other.now) }
    ensures readable { IfSome result (λ left. IsBalance (Some left)) }
    ensures none { IfNone result (MayNotTake amount own.now other.now) }
{
    let balance = raised_in(own)?;
    let beside = raised_in(other)?;
    let left = lowered(balance, beside, amount)?;
    Some(value_of(left))
}

/// What is kept of an account after an amount is added to it, or `None` where what is kept of it doesn't allow it.
pub fn added(own: &Option<Value>, amount: u64) -> Option<Value>
    ensures more { IfSome result (λ more. raised (Some more) ≡ raised own.now + amount) }
    ensures readable { IfSome result (λ more. IsBalance (Some more)) }
    ensures none { IfNone result (MayNotAdd amount own.now) }
{
    let balance = raised_in(own)?;
    let more = balance.checked_add(amount)?;
    Some(value_of(more))
}
