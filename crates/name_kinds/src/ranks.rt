//! Ranks: 0 for scalars, 1 to 3 for regions and arrays, or none where a fault leaves it open.
ghost use Rattle.std.specs.Prelude.{◌≡◌};
ghost use Rattle.zpl_names.specs.Ranks as ranks;
ghost use Rattle.zpl_names.specs.Faults as faults;

/// A rank, or none where a fault leaves it open.
pub type Rank = Option<u8>;

/// The first of two that isn't 0. One that is left open stays so.
pub fn first_rank(rank: Rank, other: Rank) -> Rank
    ensures { result ≡ ranks.first_rank rank other }
{
    match rank {
        Some(0) => other,
        _ => rank,
    }
}

/// The rank of two operands: the first that isn't 0, and left open where one of them is.
pub fn both_ranks(rank: Rank, other: Rank) -> Rank
    ensures { result ≡ ranks.both_ranks rank other }
{
    match other {
        None => None,
        Some(_) => first_rank(rank, other),
    }
}

/// What isn't given is left open.
pub fn known_rank(rank: Rank) -> Rank
    ensures { result ≡ ranks.known_rank rank }
{
    match rank {
        Some(0) => None,
        _ => rank,
    }
}

/// Whether two ranks meet that differ. Scalars go with every rank.
pub fn ranks_clash(rank: Rank, other: Rank) -> bool
    ensures { result ≡ ranks.ranks_clash rank other }
{
    match (rank, other) {
        (Some(rank), Some(other)) => rank != 0 && other != 0 && rank != other,
        _ => false,
    }
}

/// Whether it is that of an array.
pub fn is_above_zero(rank: Rank) -> bool
    ensures { result ≡ ranks.is_above_zero rank }
{
    match rank {
        None | Some(0) => false,
        _ => true,
    }
}

/// Whether it is that of a scalar.
pub fn is_zero(rank: Rank) -> bool
    ensures { result ≡ ranks.is_zero rank }
{
    match rank {
        Some(0) => true,
        _ => false,
    }
}

/// The rank of so many parts. A fourth part is a fault.
pub fn small_rank(count: usize) -> Rank
    ensures { result ≡ ranks.at_most_three count }
{
    if count <= 3 { Some(count as u8) } else { None }
}

/// The rank of an expression at its place: its own, else the one handed in where it takes one.
pub fn placed_rank(takes: bool, handed: Rank, own: Rank) -> Rank
    ensures { result ≡ ranks.placed_rank takes handed own }
{
    first_rank(own, if takes { known_rank(handed) } else { Some(0) })
}

/// Whether no rule gives an expression a rank.
pub fn lacks_rank(takes: bool, handed: Rank, own: Rank) -> bool
    ensures { result ≡ ranks.lacks_rank takes handed own }
{
    takes && is_zero(first_rank(own, handed))
}

/// Whether a coordinate has a dimension past the rank.
pub fn is_past(rank: Rank, dimension: u8) -> bool
    ensures { result ≡ faults.is_past rank dimension }
{
    match rank {
        None => false,
        Some(rank) => rank < dimension,
    }
}
