//! Which cells are searched in a round, and how many rounds there are.
ghost use Rattle.std.specs.Prelude.{◌≡◌, ◌≤◌, ◌++◌, ◌∷◌, [], ◌^◌, map, filter_map, IfOk, OnOk};
ghost use Rattle.std.specs.Option.{option_copied};
ghost use Rattle.gl_history.specs.Searching as searching;

use crate::Cell;
use gl_graph::Pattern;
use gl_match::Memory;
use std::alloc::Global;

/// The pattern of a cell, if it is searched in the round of a level.
fn level_pattern(cell: &Cell, level: u32) -> Option<&Pattern>
    ensures pattern { option_copied result ≡ searching.pattern_at level cell.now }
{
    if cell.level == level {
        cell.pattern.as_ref()
    } else {
        None
    }
}

/// Adds the pattern of a cell, if it is searched in the round of a level.
fn add_pattern<'a>(
    patterns: &mut Vec<&'a Pattern>,
    cell: &'a Cell,
    level: u32,
) -> Result<(), Memory>
    ensures added { OnOk result (map (λ p. p.now) patterns.new.items
        ≡ map (λ p. p.now) patterns.old.items ++ searching.patterns_at level (cell.now ∷ [])) }
{
    if let Some(pattern) = level_pattern(cell, level) {
        patterns.push(pattern)?;
    }
    Ok(())
}

/// The patterns of the cells that are searched in the round of a level, in library order.
pub fn level_patterns<'a>(
    alloc: Global,
    cells: &'a [Cell],
    level: u32,
) -> Result<Vec<&'a Pattern>, Memory>
    ensures patterns { IfOk result (λ ps. map (λ p. p.now) ps.items
        ≡ searching.patterns_at level cells.now) }
{
    let mut patterns = Vec::new(alloc);
    for cell in cells {
        add_pattern(&mut patterns, cell, level)?;
    }
    Ok(patterns)
}

/// Adds the number of a cell, if it is searched in the round of a level. No memory holds more cells than there are numbers.
fn add_number(numbers: &mut Vec<u32>, number: usize, cell: &Cell, level: u32) -> Result<(), Memory>
    ensures added { OnOk result (numbers.new.items
        ≡ numbers.old.items ++ filter_map (searching.number_at level) ((number, cell.now) ∷ [])) }
{
    if level_pattern(cell, level).is_some() {
        let Ok(number) = u32::try_from(number) else {
            return Err(Memory);
        };
        numbers.push(number)?;
    }
    Ok(())
}

/// The numbers of the cells that are searched in the round of a level, ascending.
pub fn level_numbers(alloc: Global, cells: &[Cell], level: u32) -> Result<Vec<u32>, Memory>
    ensures numbers { IfOk result (λ ns. ns.items ≡ searching.numbers_at level cells.now) }
{
    let mut numbers = Vec::new(alloc);
    for (number, cell) in cells.iter().enumerate() {
        add_number(&mut numbers, number, cell, level)?;
    }
    Ok(numbers)
}

/// How many rounds there are: one for each level from 0 to the greatest.
pub fn count_rounds(cells: &[Cell]) -> u64
    ensures rounds { result ≡ searching.rounds_of cells.now }
    ensures most { result ≤ 2 ^ 32 }
{
    let mut rounds = 0;
    for cell in cells {
        rounds = rounds.max(u64::from(cell.level) + 1);
    }
    rounds
}
