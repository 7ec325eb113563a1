ghost use Rattle.std.specs.Prelude.{◌≡◌, ◌≤ℤ◌, ◌<ℤ◌, ◌*ℤ◌, ◌-ℤ◌, pos, FitsSigned, IfOk, IfErr, IfSome};
ghost use Rattle.std.specs.Int.{w128};
ghost use Rattle.wp_master.specs.Pivots.{IsTwofoldOf, IsWideFor};

/// Two factors whose product leaves an `i128`.
#[derive(Clone, Copy)]
pub struct TooWide {
    pub left: i128,
    pub right: i128,
}

// The product of two numbers of 64 bits, which needs no test.
pub(crate) fn narrow_product(left: i64, right: i64) -> i128
    ensures { result ≡ left *ℤ right }
{
    i128::from(left) * i128::from(right)
}

// The product of two numbers, or the two where it leaves an `i128`.
pub(crate) fn product(left: i128, right: i128) -> Result<i128, TooWide>
    ensures is { IfOk result (λ value. value ≡ left *ℤ right) }
    ensures wide { IfErr result (λ wide. (wide.left ≡ left) × (wide.right ≡ right)
        × (FitsSigned w128 (left *ℤ right) → ⊥)) }
{
    if let (Ok(one), Ok(other)) = (i64::try_from(left), i64::try_from(right)) {
        return Ok(narrow_product(one, other));
    }
    match left.checked_mul(right) {
        Some(value) => Ok(value),
        None => Err(TooWide { left, right }),
    }
}

// Twice a number, and another: a product that leaves an `i128`.
fn twofold(left: i128, right: i128) -> TooWide
    requires fits { FitsSigned w128 (left *ℤ right) }
    requires leaves { FitsSigned w128 (pos 2 *ℤ (left *ℤ right)) → ⊥ }
    ensures { IsTwofoldOf left right result.left result.right }
{
    match left.checked_mul(2) {
        Some(twice) => TooWide { left: twice, right },
        None => TooWide {
            left: right * 2,
            right: left,
        },
    }
}

// The difference of two products, where all factors have 64 bits.
#[inline(always)]
fn narrow_cross(left: i128, right: i128, other: i128, further: i128) -> Option<i128>
    ensures { IfSome result (λ value. value ≡ (left *ℤ right) -ℤ (other *ℤ further)) }
{
    let (Ok(left), Ok(right)) = (i64::try_from(left), i64::try_from(right)) else {
        return None;
    };
    let (Ok(other), Ok(further)) = (i64::try_from(other), i64::try_from(further)) else {
        return None;
    };
    let one = narrow_product(left, right);
    let two = narrow_product(other, further);
    match one.checked_sub(two) {
        Some(value) => Some(value),
        None => None,
    }
}

/// The difference of two products, or two factors whose product leaves an `i128`: those of one of the two, or twice a
/// factor and the other.
#[inline(always)]
pub(crate) fn cross(left: i128, right: i128, other: i128, further: i128) -> Result<i128, TooWide>
    ensures is { IfOk result (λ value. value ≡ (left *ℤ right) -ℤ (other *ℤ further)) }
    ensures wide { IfErr result (λ wide. IsWideFor left right other further wide.left wide.right) }
{
    match narrow_cross(left, right, other, further) {
        Some(value) => Ok(value),
        None => wide_cross(left, right, other, further),
    }
}

// The same, whatever the factors are.
fn wide_cross(left: i128, right: i128, other: i128, further: i128) -> Result<i128, TooWide>
    ensures is { IfOk result (λ value. value ≡ (left *ℤ right) -ℤ (other *ℤ further)) }
    ensures wide { IfErr result (λ wide. IsWideFor left right other further wide.left wide.right) }
{
    let first = product(left, right)?;
    let second = product(other, further)?;
    match first.checked_sub(second) {
        Some(value) => Ok(value),
        None => Err(widest(left, right, first, other, further)),
    }
}

// Of two products whose difference leaves an `i128`, the factors of one that leaves it when it is doubled, one of them
// doubled.
fn widest(left: i128, right: i128, first: i128, other: i128, further: i128) -> TooWide
    requires first { first ≡ left *ℤ right }
    requires second { FitsSigned w128 (other *ℤ further) }
    requires leaves { FitsSigned w128 ((left *ℤ right) -ℤ (other *ℤ further)) → ⊥ }
    ensures { IsWideFor left right other further result.left result.right }
{
    match first.checked_mul(2) {
        Some(_) => twofold(other, further),
        None => twofold(left, right),
    }
}
