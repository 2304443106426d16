//! What stands under numbers: what is put under a number first stays.
ghost use Rattle.std.specs.Prelude.{◌≡◌, ◌<◌, ◌∷◌, [], ℕ, length, OnOk};
ghost use Rattle.std.specs.Option.{option_copied};
ghost use Rattle.gl_named.specs.Firsts.{at_number, Adds};

use gl_map::Memory;

/// Makes room for a number.
fn grow<T: Drop>(table: &mut Vec<Option<T>>, number: usize) -> Result<(), Memory>
    ensures stays { (k : ℕ) → at_number table.new.items k ≡ at_number table.old.items k }
    ensures room { OnOk result (number < length table.new.items) }
{
    while table.len() <= number {
        table.push(None)?;
    }
    Ok(())
}

/// Puts a value under a number, unless something stands there.
pub fn put_first<T: Drop>(table: &mut Vec<Option<T>>, number: usize, value: T) -> Result<(), Memory>
    ensures added { OnOk result
        (Adds table.old.items table.new.items ((number, value) ∷ [])) }
{
    grow(table, number)?;
    if table[number].is_none() {
        table[number] = Some(value);
    }
    Ok(())
}

/// What stands under a number, if anything does.
pub fn look_up<T>(table: &[Option<T>], number: usize) -> Option<&T>
    ensures found { option_copied result ≡ at_number table.now number }
{
    match table.get(number) {
        Some(entry) => entry.as_ref(),
        None => None,
    }
}
