ghost use Rattle.std.specs.Prelude.{◌≡◌, ◌↔◌, ◌≤◌, IfOk, IsOk};
ghost use Rattle.quorum_sets.specs.Quorum.{IsGroup, group_size, quorum_size};
ghost use Rattle.quorum_sets.specs.declared.sizes.Rules.TheVariants.{First};

use thiserror::Error;

/// The rules that the masters of a group go by: those first specified, or those that stay alive whatever at most `f`
/// intruded masters say, in their own ticks.
#[derive(Clone, Copy, Debug, PartialEq, Eq)]
pub enum Rules {
    First,
    Live,
}

/// The sizes of a group: `f` masters may be intruded and `k` more may be away, `n = 3f + 2k + 1` is their
/// number and `q = 2f + k + 1` a quorum. With them stand the rules that its masters go by.
#[derive(Clone, Copy)]
pub struct Sizes {
    pub n: u32,
    pub f: u32,
    pub k: u32,
    pub q: u32,
    pub rules: Rules,
    pub ghost group: { IsGroup f k },
    pub ghost all: { n ≡ group_size f k },
    pub ghost quorum: { q ≡ quorum_size f k },
}

/// `f` is 0 or above 3, or `k` is above 2.
#[derive(Clone, Copy, Debug, PartialEq, Eq, Error)]
#[error("f must be 1 to 3 and k 0 to 2")]
pub struct BadSizes;

impl Sizes {
    /// The group of these sizes that goes by the first rules.
    pub fn new(f: u32, k: u32) -> Result<Sizes, BadSizes>
        ensures made { IsOk result ↔ IsGroup f k }
        ensures intruded { IfOk result (λ sizes. sizes.f ≡ f) }
        ensures away { IfOk result (λ sizes. sizes.k ≡ k) }
        ensures rules { IfOk result (λ sizes. sizes.rules ≡ First) }
    {
        if f == 0 || f > 3 || k > 2 {
            return Err(BadSizes);
        }
        Ok(Sizes {
            n: 3 * f + 2 * k + 1,
            f,
            k,
            q: 2 * f + k + 1,
            rules: Rules::First,
        })
    }

    /// A group of the same sizes that goes by these rules.
    pub fn under(self, rules: Rules) -> Sizes
        ensures rules { result.rules ≡ rules }
        ensures masters { result.n ≡ self.n }
        ensures intruded { result.f ≡ self.f }
        ensures away { result.k ≡ self.k }
        ensures quorum { result.q ≡ self.q }
    {
        Sizes {
            n: self.n,
            f: self.f,
            k: self.k,
            q: self.q,
            rules,
        }
    }
}
