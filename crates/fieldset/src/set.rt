//! A set of the numbers below a width, in the bits of one number.
ghost use Rattle.std.specs.Prelude.{◌≡◌, ℕ, ◌-◌, ◌%◌, ◌^◌, ◌<◌, ◌≤◌, min, true, not, ◌&&◌, ◌||◌, length, Some, None, ◌==◌, ◌≢◌, bit_and, bit_or, count_ones};
ghost use Rattle.fieldset.specs.Sets.{has, minus, inside, how_many, members};

/// A set of numbers below `WIDTH`: `k` is a member where bit `k` is set. Numbers from 16 on are never members.
// Bits of one number, not a set of std: it is `Copy`, takes no heap, and is written as a number at the interface.
#[derive(Clone, Copy, PartialEq, Eq, Debug)]
pub struct BitSet<const WIDTH: u32> {
    bits: u16,
    ghost narrow: { bits < 2 ^ WIDTH },
}

impl<const WIDTH: u32> BitSet<WIDTH> {
    /// The set with no member.
    pub fn empty() -> Self
        ensures { result.bits ≡ 0 }
    {
        BitSet { bits: 0 }
    }

    /// The set with one member, or none where a set cannot hold it.
    #[tactic(auto, using(std::proofs::lemmas::Nat::one_shl, std::proofs::lemmas::Nat::pow_below))]
    pub fn only(member: u8) -> Option<Self>
        ensures { elim result [ Some s ↦ s.bits ≡ 2 ^ member | None ↦ min WIDTH 16 ≤ member ] }
    {
        if u32::from(member) < WIDTH && member < 16 {
            Some(BitSet { bits: 1 << member })
        } else {
            None
        }
    }

    /// The set that is written as `bits`, or none where one of them stands for no member.
    pub fn from_bits(bits: u16) -> Option<Self>
        ensures { elim result [ Some s ↦ s.bits ≡ bits | None ↦ 2 ^ WIDTH ≤ bits ] }
    {
        let set = Self::from_bits_truncate(bits);
        if set.bits == bits { Some(set) } else { None }
    }

    /// The set that is written as `bits`, where those that stand for no member are left out.
    pub fn from_bits_truncate(bits: u16) -> Self
        ensures { result.bits ≡ bits % 2 ^ WIDTH }
    {
        if WIDTH >= 16 {
            return BitSet { bits };
        }
        BitSet {
            bits: bits % (1 << WIDTH),
        }
    }

    /// The set as a number, member `k` as 2^k.
    pub fn bits(self) -> u16
        ensures { result ≡ self.entry.bits }
    {
        self.bits
    }

    /// Whether a number is a member.
    #[tactic(auto, using(crate::proofs::Laws::has_high))]
    pub fn contains(self, member: u8) -> bool
        ensures { result ≡ has self.entry.bits member }
    {
        member < 16 && (self.bits >> member) % 2 == 1
    }

    /// Whether there is no member.
    pub fn is_empty(self) -> bool
        ensures is { result ≡ (self.entry.bits == 0) }
        ensures each { result ≡ true → (k : ℕ) → has self.entry.bits k ≢ true }
    {
        self.bits == 0
    }

    /// How many members there are.
    #[tactic(auto, using(crate::proofs::Laws::ones_count, crate::proofs::Members::members_count))]
    pub fn len(self) -> u32
        ensures is { result ≡ count_ones self.entry.bits }
        ensures each { result ≡ how_many WIDTH self.entry.bits }
        ensures members { result ≡ length (members WIDTH self.entry.bits) }
    {
        self.bits.count_ones()
    }

    /// The members of either.
    #[tactic(auto, using(crate::proofs::Laws::has_or, std::proofs::lemmas::Nat::or_lt))]
    pub fn union(self, other: Self) -> Self
        ensures is { result.bits ≡ bit_or self.entry.bits other.entry.bits }
        ensures each { (k : ℕ) → has result.bits k ≡ (has self.entry.bits k || has other.entry.bits k) }
    {
        BitSet {
            bits: self.bits | other.bits,
        }
    }

    /// The members of both.
    #[tactic(auto, using(crate::proofs::Laws::has_and))]
    pub fn intersection(self, other: Self) -> Self
        ensures is { result.bits ≡ bit_and self.entry.bits other.entry.bits }
        ensures each { (k : ℕ) → has result.bits k ≡ (has self.entry.bits k && has other.entry.bits k) }
    {
        BitSet {
            bits: self.bits & other.bits,
        }
    }

    /// The members of this set that are not members of the other.
    #[tactic(auto, using(crate::proofs::Laws::has_minus, crate::proofs::Laws::minus_is))]
    pub fn difference(self, other: Self) -> Self
        ensures is { result.bits ≡ minus self.entry.bits other.entry.bits }
        ensures each { (k : ℕ) → has result.bits k ≡ (has self.entry.bits k && not (has other.entry.bits k)) }
    {
        BitSet {
            bits: self.bits & !other.bits,
        }
    }

    /// The set without its lowest member.
    // Not the difference with that member alone: it is worked out from the set, and the next step waits for it.
    pub(crate) fn without_lowest(self) -> Self
        requires { 0 < self.bits }
        ensures { result.bits ≡ bit_and self.entry.bits (self.entry.bits - 1) }
    {
        BitSet {
            bits: self.bits & (self.bits - 1),
        }
    }

    /// Whether each member is a member of the other.
    #[tactic(auto, using(crate::proofs::Laws::inside_each, crate::proofs::Laws::inside_all))]
    pub fn is_subset(self, other: Self) -> bool
        ensures is { result ≡ inside self.entry.bits other.entry.bits }
        ensures each { result ≡ true → (k : ℕ) → has self.entry.bits k ≡ true → has other.entry.bits k ≡ true }
        ensures all { ((k : ℕ) → has self.entry.bits k ≡ true → has other.entry.bits k ≡ true) → result ≡ true }
    {
        self.bits & other.bits == self.bits
    }
}
