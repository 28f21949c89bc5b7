// Sets of cabinets, by number: the sum of 2^k over the members k. The rules of the project give sets by their numbers.
ghost use Rattle.std.specs.Prelude.{◌≡◌, ◌-◌, ◌^◌, min, if◌then◌else◌, MatchBool, bit_or, nat_lt};
ghost use Rattle.quorums.specs.Sets.{Member, Inside, Share, Those, lesser};

// Whether cabinet k is a member.
pub fn has(set: u16, k: u8) -> bool
    ensures { MatchBool result (Member k set) (Member k set → ⊥) }
{
    k < 16 && (set >> k) & 1 == 1
}

// The set with cabinet k, which has to be below 16 to join it.
pub fn with(set: u16, k: u8) -> u16
    ensures { result ≡ (if nat_lt k 16 then bit_or set (2 ^ k) else set) }
{
    if k < 16 { set | (1u16 << k) } else { set }
}

// Whether every member of s is one of t.
pub fn is_inside(s: u16, t: u16) -> bool
    ensures { MatchBool result (Inside s t) (Inside s t → ⊥) }
{
    s & t == s
}

// Whether s and t share a cabinet.
pub fn do_share(s: u16, t: u16) -> bool
    ensures { MatchBool result (Share s t) (Share s t → ⊥) }
{
    s & t != 0
}

// The set of all of so many cabinets, at most 16.
pub fn all(cabinets: u8) -> u16
    ensures { result ≡ 2 ^ min cabinets 16 - 1 }
{
    ((1u32 << cabinets.min(16)) - 1) as u16
}

// The lesser of the best set so far, if there is one, and another.
pub fn least(best: Option<u16>, s: u16) -> u16
    ensures { result ≡ lesser best s }
{
    best.map_or(s, |b| b.min(s))
}

// Those of so many cabinets, at most 16, that are not in the set.
pub fn outside(set: u16, cabinets: u8) -> u16
    ensures { Those (λ k. Member k set → ⊥) (min cabinets 16) result }
{
    all(cabinets) & !set
}
