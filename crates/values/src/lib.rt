// Values as C has them: written into lent words, as many as there is room for. Internal: the exported functions tell
// their answers by these.
#![tactic(auto)]

ghost use Rattle.std.specs.Prelude.{[], ◌∷◌, ◌≡◌, ◌<◌, ◌≤◌, length, slice_set};
ghost use Rattle.spec.specs.Outcome.{refused};
ghost use Rattle.refusal.specs.Numbers as Refusals;
ghost use Rattle.values.specs.Told.{laid, Told, one_value};

use refusal::Refusal;

// Writes a value at a place, if there is room for it.
fn put_at(values: &mut [u64], i: usize, value: u64)
    ensures inside { i < length values.old → values.new ≡ slice_set values.old i value }
    ensures outside { length values.old ≤ i → values.new ≡ values.old }
{
    if i < values.len() {
        values[i] = value;
    }
}

// Writes what is told to the start of the values, as much of it as there is room for. Value by value, each with a test
// of its own: a copy of as many as there is room for is a call of memcpy, and the library for C calls memset alone.
pub fn put(values: &mut [u64], told: &[u64])
    ensures { values.new ≡ laid told.now values.old }
{
    for (i, value) in told.iter().enumerate() {
        put_at(values, i, *value);
    }
}

// Tells a refusal: its place is the value, and its number is returned. Cold, so that the table of the numbers stays out
// of the functions that answer.
#[cold]
pub fn tell_refusal(values: &mut [u64], refusal: Refusal) -> u32
    ensures { Told one_value (refused (Refusals.number_of refusal) (Refusals.place_of refusal)) values.old result
        values.new }
{
    put(values, &[refusal.place() as u64]);
    refusal.number()
}
