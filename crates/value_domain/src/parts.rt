ghost use Rattle.std.specs.Prelude.{◌≡◌, ℕ, ◌+◌, ◌*◌, ◌≤◌, ◌++◌, ◌&&◌, Bool, List, All, IfOk, if◌then◌else◌, length, map, sum_by};
ghost use Rattle.bits_core.specs.Places.{is_set};
ghost use Rattle.design_core.specs.Operators.{all_match, one_bit, repeated};
ghost use Rattle.design_core.specs.Terms.{free_bits};
ghost use Rattle.value_domain.specs.Meaning.{Keeps, Stands};
ghost use Rattle.value_domain.specs.Words.{FreeFits, IsGuard, IsWord, Made, allows, together, turned};

use crate::domain::Domain;
use bits_core::{Bits, NoMemory};
use design_core::{Binary, Unary};

/// A value with its width.
#[derive(Drop)]
pub struct Word<V> {
    pub value: V,
    pub length: u32,
}

/// The bits of two values, those of the first above those of the second (IEEE 1364-2005, 5.1.14). Linear in both lengths.
pub fn join<D: Domain>(
    domain: &mut D,
    high: &Word<D::Value>,
    low: &Word<D::Value>,
) -> Result<Word<D::Value>, NoMemory>
    requires first { IsWord D.meaning domain.old high.now }
    requires second { IsWord D.meaning domain.old low.now }
    requires most { low.now.length + high.now.length ≤ 65536 }
    ensures made { IfOk result (λ r. Made D.meaning domain.new r (low.now.length + high.now.length)
        (λ v. D.meaning.reads domain.old v low.now.value ++ D.meaning.reads domain.old v high.now.value)) }
    ensures kept { Keeps D.meaning domain.old domain.new }
{
    let total = low.length + high.length;
    let wide = domain.extend(&low.value, total, false)?;
    let value = domain.place(&wide, &high.value, low.length as i64)?;
    Ok(Word {
        value,
        length: total,
    })
}

/// The bits of some values, those of the first highest (IEEE 1364-2005, 5.1.14). The total length times the logarithm of the number of values.
pub fn concatenate<D: Domain>(
    domain: &mut D,
    words: &[Word<D::Value>],
) -> Result<Word<D::Value>, NoMemory>
    requires some { 1 ≤ length words.now }
    requires values { All (IsWord D.meaning domain.old) words.now }
    requires most { sum_by (λ w. w.length) words.now ≤ 65536 }
    ensures made { IfOk result (λ r. Made D.meaning domain.new r (sum_by (λ w. w.length) words.now)
        (λ v. together (map (λ w. D.meaning.reads domain.old v w.value) words.now))) }
    ensures kept { Keeps D.meaning domain.old domain.new }
{
    if words.len() == 1 {
        let value = domain.copy(&words[0].value)?;
        return Ok(Word {
            value,
            length: words[0].length,
        });
    }
    let half = words.len() / 2;
    let high = concatenate(domain, &words[..half])?;
    let low = concatenate(domain, &words[half..])?;
    join(domain, &high, &low)
}

/// The same bits over and over (IEEE 1364-2005, 5.1.14). The total length times the logarithm of the count.
pub fn repeat<D: Domain>(
    domain: &mut D,
    count: u32,
    part: &Word<D::Value>,
) -> Result<Word<D::Value>, NoMemory>
    requires some { 1 ≤ count }
    requires value { IsWord D.meaning domain.old part.now }
    requires most { count * part.now.length ≤ 65536 }
    ensures made { IfOk result (λ r. Made D.meaning domain.new r (count * part.now.length) (λ v. repeated count (D.meaning.reads domain.old v part.now.value))) }
    ensures kept { Keeps D.meaning domain.old domain.new }
{
    if count == 1 {
        let value = domain.copy(&part.value)?;
        return Ok(Word {
            value,
            length: part.length,
        });
    }
    let half = count / 2;
    let low = repeat(domain, half, part)?;
    let high = repeat(domain, count - half, part)?;
    join(domain, &high, &low)
}

/// Whether an item of a case matches the selector: all bits agree that are not free (IEEE 1364-2005, 9.5.1). Linear in the length.
pub fn matched<D: Domain>(
    domain: &mut D,
    selector: &D::Value,
    item: &D::Value,
    free: &Option<Bits>,
) -> Result<D::Value, NoMemory>
    requires values { D.meaning.is_value domain.old selector.now × D.meaning.is_value domain.old item.now }
    requires same { D.meaning.width selector.now ≡ D.meaning.width item.now }
    requires fits { FreeFits free.now (D.meaning.width selector.now) }
    ensures made { IfOk result (λ r. Stands D.meaning domain.new r 1
        (λ v. one_bit (all_match (D.meaning.reads domain.old v selector.now) (D.meaning.reads domain.old v item.now) (free_bits free.now)))) }
    ensures kept { Keeps D.meaning domain.old domain.new }
{
    match free {
        None => domain.binary(Binary::Equal, selector, item, false),
        Some(bits) => {
            let unlike = domain.binary(Binary::Xor, selector, item, false)?;
            let free = domain.constant(bits)?;
            let fixed = domain.unary(Unary::Invert, &free)?;
            let counts = domain.binary(Binary::And, &unlike, &fixed, false)?;
            domain.unary(Unary::Nor, &counts)
        }
    }
}

/// Whether a guard allows, and a test besides is true or, where `on` is false, is not.
pub fn narrowed<D: Domain>(
    domain: &mut D,
    guard: &Option<D::Value>,
    test: &D::Value,
    on: bool,
) -> Result<D::Value, NoMemory>
    requires guard_is { IsGuard D.meaning domain.old guard.now }
    requires test_is { D.meaning.is_value domain.old test.now }
    ensures made { IfOk result (λ r. D.meaning.is_value domain.new r × ((v : ℕ → Bool) →
        is_set (D.meaning.reads domain.new v r) ≡ (allows D.meaning domain.old v guard.now && turned on (is_set (D.meaning.reads domain.old v test.now))))) }
    ensures kept { Keeps D.meaning domain.old domain.new }
{
    let test = if on {
        domain.unary(Unary::Or, test)?
    } else {
        domain.unary(Unary::Nor, test)?
    };
    match guard {
        None => Ok(test),
        Some(guard) => domain.binary(Binary::LogicAnd, guard, &test, false),
    }
}

/// The new value where the guard allows, else the old one. Linear in the length.
pub fn guarded<D: Domain>(
    domain: &mut D,
    guard: &Option<D::Value>,
    new: D::Value,
    old: &D::Value,
) -> Result<D::Value, NoMemory>
    requires guard_is { IsGuard D.meaning domain.old guard.now }
    requires values { D.meaning.is_value domain.old new × D.meaning.is_value domain.old old.now }
    requires same { D.meaning.width new ≡ D.meaning.width old.now }
    ensures made { IfOk result (λ r. Stands D.meaning domain.new r (D.meaning.width old.now)
        (λ v. if allows D.meaning domain.old v guard.now then D.meaning.reads domain.old v new else D.meaning.reads domain.old v old.now)) }
    ensures kept { Keeps D.meaning domain.old domain.new }
{
    match guard {
        None => Ok(new),
        Some(guard) => domain.mux(guard, &new, old),
    }
}
