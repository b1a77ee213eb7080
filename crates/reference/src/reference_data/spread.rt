//! What is reached, as a list.
ghost use Rattle.std.specs.Prelude.{◌≡◌, map, length, ◌||◌, IfOk};
ghost use Rattle.model.specs.Reached.{has, fresh_of, reached_list};
ghost use Rattle.reference.specs.Table.{row};

use std::alloc::{AllocError, Allocator};

/// Whether the name is in the list.
pub fn has(names: &[usize], name: usize) -> bool
    ensures { result ≡ has names.now name }
{
    names.iter().any(|x| name == *x)
}

fn has_either(first: &[usize], second: &[usize], name: usize) -> bool
    ensures { result ≡ (has first.now name || has second.now name) }
{
    has(first, name) || has(second, name)
}

/// The names that were not seen, each where it comes first.
/// An error says that memory ran out.
pub fn fresh_of<A: Allocator>(
    alloc: A,
    seen: &[usize],
    names: &[usize],
) -> Result<Vec<usize, A>, AllocError>
    ensures { IfOk result (λ v. v.items ≡ fresh_of seen.now names.now) }
{
    let mut fresh = Vec::new(alloc);
    for (i, name) in names.iter().enumerate() {
        if !has_either(&names[..i], seen, *name) {
            fresh.push(*name)?;
        }
    }
    Ok(fresh)
}

fn row_of<A: Allocator>(rows: &[Vec<usize, A>], name: usize) -> &[usize]
    ensures { result.now ≡ row (map (λ r. r.items) rows.now) name }
{
    if name < rows.len() {
        rows[name].as_slice()
    } else {
        &[]
    }
}

/// The start and what it leads to, breadth first, each name once. The row of a name has what the name leads to.
/// An error says that memory ran out.
pub fn reached<A: Allocator + Clone>(
    alloc: A,
    rows: &[Vec<usize, A>],
    start: &[usize],
) -> Result<Vec<usize, A>, AllocError>
    ensures { IfOk result
        (λ v. v.items ≡ reached_list (row (map (λ r. r.items) rows.now)) (length rows.now) start.now) }
{
    let mut found = fresh_of(alloc.clone()?, &[], start)?;
    let mut done = 0;
    while done < found.len() && done < rows.len() {
        let more = fresh_of(alloc.clone()?, found.as_slice(), row_of(rows, found[done]))?;
        found.extend_from_slice(more.as_slice())?;
        done += 1;
    }
    Ok(found)
}
