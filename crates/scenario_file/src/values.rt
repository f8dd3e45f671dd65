ghost use Rattle.std.specs.Prelude.{◌≡◌, ◌++◌, ◌&&◌, ◌≤◌, length, option_map, int_le, pos, IfOk};
ghost use Rattle.hex.specs.Hex.{decode_sized};
ghost use Rattle.toml.specs.Data.{get_member};
ghost use Rattle.toml.specs.View.{view, table_view};
ghost use Rattle.scenario_file.specs.Answers.{Answers, Shows, bad, kept};
ghost use Rattle.scenario_file.specs.Values.{needed, integer_in, integer_at, integer_or, count_in, count_at, count_or, text_at, decoded, bytes_at, or_missing, magnitude};
ghost use Rattle.scenario_file.specs.declared.refusal.ScenarioRefusal.TheVariants.{TooMany};

use crate::refusal::ScenarioRefusal;
use plain_lists::{Text, Want};
use std::alloc::Global;
use toml::{Table, Value};

/// The keys of one table, and what stands before their names: nothing, or the row's name as `point[2].`.
#[derive(Clone, Copy)]
pub struct Keys<'a> {
    pub alloc: Global,
    pub at: &'a str,
    pub table: &'a Table,
}

/// The key's whole name.
pub fn whole_name(alloc: Global, at: &str, key: &str) -> Result<Text, Want>
    ensures { IfOk result (λ name. name ≡ at.now ++ key.now) }
{
    let mut name = String::from_str(alloc, at)?;
    name.push_str(key)?;
    Text::from_str(alloc, name.as_str())
}

/// The key's value is of another type, out of range or names nothing.
pub fn bad<T>(alloc: Global, at: &str, key: &str) -> Result<T, ScenarioRefusal>
    ensures { Answers result (bad (at.now ++ key.now)) }
{
    match whole_name(alloc, at, key) {
        Ok(name) => Err(ScenarioRefusal::BadValue { name }),
        Err(Want) => Err(ScenarioRefusal::Want),
    }
}

/// The key's list is longer than it may be.
pub fn too_many<T>(alloc: Global, at: &str, key: &str) -> Result<T, ScenarioRefusal>
    ensures { Answers result (Err (TooMany (at.now ++ key.now))) }
{
    match whole_name(alloc, at, key) {
        Ok(name) => Err(ScenarioRefusal::TooMany { name }),
        Err(Want) => Err(ScenarioRefusal::Want),
    }
}

/// A number, where it is within its bounds.
fn within(
    alloc: Global,
    number: i64,
    at: &str,
    key: &str,
    low: i64,
    high: i64,
) -> Result<i64, ScenarioRefusal>
    ensures { Answers result (kept (at.now ++ key.now) (int_le low number && int_le number high) number) }
{
    if low <= number && number <= high {
        Ok(number)
    } else {
        bad(alloc, at, key)
    }
}

/// The whole number that a value is, within bounds.
#[tactic(auto, unfolding(crate::specs::Values::integer_in))]
pub fn integer(
    alloc: Global,
    value: &Value,
    at: &str,
    key: &str,
    low: i64,
    high: i64,
) -> Result<i64, ScenarioRefusal>
    ensures { Answers result (integer_in (at.now ++ key.now) low high (view value.now)) }
{
    match value.as_integer() {
        Some(number) => within(alloc, number, at, key, low, high),
        None => bad(alloc, at, key),
    }
}

/// The same without a sign.
#[tactic(auto, unfolding(crate::specs::Values::count_in, crate::specs::Values::integer_in))]
pub fn count(
    alloc: Global,
    value: &Value,
    at: &str,
    key: &str,
    low: u32,
    high: u32,
) -> Result<u32, ScenarioRefusal>
    ensures answer { Answers result (count_in (at.now ++ key.now) low high (view value.now)) }
    ensures low { IfOk result (λ n. low ≤ n) }
    ensures high { IfOk result (λ n. n ≤ high) }
{
    let number = integer(alloc, value, at, key, i64::from(low), i64::from(high))?;
    Ok(number as u32)
}

impl<'a> Keys<'a> {
    /// What a key holds.
    pub fn member(&self, key: &str) -> Option<&'a Value>
        ensures { option_map (λ v. view v.now) result ≡ get_member key.now (table_view self.now.table.now) }
    {
        self.table.get(key)
    }

    /// What a key without a default holds.
    #[tactic(auto, unfolding(crate::specs::Values::needed))]
    pub fn needed(&self, key: &str) -> Result<&'a Value, ScenarioRefusal>
        ensures { Shows (λ v. view v.now) result (needed self.now.at.now key.now (table_view self.now.table.now)) }
    {
        match self.member(key) {
            Some(value) => Ok(value),
            None => match whole_name(self.alloc, self.at, key) {
                Ok(name) => Err(ScenarioRefusal::MissingKey { name }),
                Err(Want) => Err(ScenarioRefusal::Want),
            },
        }
    }

    /// The key's value is of another type, out of range or names nothing.
    pub fn bad<T>(&self, key: &str) -> Result<T, ScenarioRefusal>
        ensures { Answers result (bad (self.now.at.now ++ key.now)) }
    {
        bad(self.alloc, self.at, key)
    }

    /// The number of a key without a default.
    #[tactic(auto, unfolding(crate::specs::Values::integer_at))]
    pub fn integer_at(&self, key: &str, low: i64, high: i64) -> Result<i64, ScenarioRefusal>
        ensures { Answers result (integer_at self.now.at.now key.now low high (table_view self.now.table.now)) }
    {
        let value = self.needed(key)?;
        integer(self.alloc, value, self.at, key, low, high)
    }

    /// The number of a key, or the default where it isn't there.
    #[tactic(auto, unfolding(crate::specs::Values::integer_or, crate::specs::Values::integer_in))]
    pub fn integer_or(
        &self,
        key: &str,
        default: i64,
        low: i64,
        high: i64,
    ) -> Result<i64, ScenarioRefusal>
        ensures { Answers result (integer_or self.now.at.now key.now default low high (table_view self.now.table.now)) }
    {
        match self.member(key) {
            Some(value) => integer(self.alloc, value, self.at, key, low, high),
            None => within(self.alloc, default, self.at, key, low, high),
        }
    }

    /// The count of a key without a default.
    #[tactic(auto, unfolding(crate::specs::Values::count_at))]
    pub fn count_at(&self, key: &str, low: u32, high: u32) -> Result<u32, ScenarioRefusal>
        ensures answer { Answers result (count_at self.now.at.now key.now low high (table_view self.now.table.now)) }
        ensures low { IfOk result (λ n. low ≤ n) }
        ensures high { IfOk result (λ n. n ≤ high) }
    {
        let value = self.needed(key)?;
        count(self.alloc, value, self.at, key, low, high)
    }

    /// The count of a key, or the default where it isn't there.
    #[tactic(auto, unfolding(crate::specs::Values::count_or, crate::specs::Values::count_in, crate::specs::Values::integer_in))]
    pub fn count_or(
        &self,
        key: &str,
        default: u32,
        low: u32,
        high: u32,
    ) -> Result<u32, ScenarioRefusal>
        requires low { low ≤ default }
        requires high { default ≤ high }
        ensures answer { Answers result (count_or self.now.at.now key.now default low high (table_view self.now.table.now)) }
        ensures low { IfOk result (λ n. low ≤ n) }
        ensures high { IfOk result (λ n. n ≤ high) }
    {
        match self.member(key) {
            Some(value) => count(self.alloc, value, self.at, key, low, high),
            None => Ok(default),
        }
    }

    /// The text of a key without a default.
    #[tactic(auto, unfolding(crate::specs::Values::text_at))]
    pub fn text_at(&self, key: &str) -> Result<&'a str, ScenarioRefusal>
        ensures { Shows (λ s. s.now) result (text_at self.now.at.now key.now (table_view self.now.table.now)) }
    {
        let value = self.needed(key)?;
        match value.as_str() {
            Some(text) => Ok(text),
            None => self.bad(key),
        }
    }

    /// The 32 bytes that a key gives as hex digits.
    #[tactic(auto, unfolding(crate::specs::Values::bytes_at))]
    pub fn seed_at(&self, key: &str) -> Result<[u8; 32], ScenarioRefusal>
        ensures { Answers result (bytes_at self.now.at.now key.now 32 (table_view self.now.table.now)) }
    {
        let text = self.text_at(key)?;
        let mut bytes = [0; 32];
        match hex::decode_to_slice(text, &mut bytes) {
            Ok(()) => Ok(bytes),
            Err(_) => self.bad(key),
        }
    }
}
