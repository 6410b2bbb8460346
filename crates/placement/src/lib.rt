// The search for a place among cells that are marked with the round that frees them, 0 where they are free.
#![tactic(auto)]

ghost use Rattle.std.specs.Prelude.{◌≡◌, ◌+◌, ◌≤◌, ◌<◌, None, IfSome, unwrap_or};
ghost use Rattle.placement.specs.Fitting.{FirstFit, fit_under};
ghost use Rattle.placement.specs.Least.{LeastLimit, LeastPlace, start_of, limit_of};

// Where the first place begins, if there is one, and how many looks at a cell it took.
#[derive(Clone, Copy, Debug, PartialEq, Eq)]
pub struct Looked {
    pub fit: Option<usize>,
    pub looks: usize,
}

// The lowest start from which `need` cells are all marked within the limit. A cell above the limit is stepped past, so that no cell is looked at twice.
pub fn first_fit(marks: &[u8], limit: u8, need: usize) -> Looked
    requires { 0 < need }
    ensures { FirstFit marks.now limit need result.fit result.looks }
{
    let mut start: usize = 0;
    let mut looks: usize = 0;
    'outer: loop {
        let mut run: usize = 0; // cells within the limit
        loop {
            if run == need {
                break 'outer Looked {
                    fit: Some(start),
                    looks,
                };
            }
            if start + run == marks.len() {
                break 'outer Looked {
                    fit: None,
                    looks, // at every cell
                };
            }
            looks += 1;
            if limit < marks[start + run] {
                break;
            }
            run += 1;
        }
        start += run + 1; // past the occupied one
    }
}

// The least limit, `most` at the most, under which there is a place, where nothing is free. One pass: the highest mark of a place is the next bound, and the search goes on behind that cell, since no place that has it costs less.
fn least_limit(marks: &[u8], need: usize, most: usize) -> Option<usize>
    requires need_nonzero { (0 < need) × (most ≤ 30) }
    requires need_value { fit_under marks.now 0 need ≡ None }
    ensures least { LeastLimit marks.now need most (unwrap_or result (most + 1)) }
    ensures within { IfSome result (λ limit. limit ≤ most) }
{
    let mut bound = most + 1;
    let mut start: usize = 0;
    'outer: loop {
        let mut run: usize = 0; // cells below the bound
        let mut top: usize = 0;
        let mut at = start;
        loop {
            if run == need {
                if top <= 1 {
                    return Some(top); // no other costs less
                }
                bound = top;
                start = at + 1;
                continue 'outer;
            }
            if start + run == marks.len() {
                if most < bound {
                    return None; // no place was met
                }
                return Some(bound);
            }
            let cell = start + run;
            let mark = usize::from(marks[cell]);
            if bound <= mark {
                break;
            }
            run += 1;
            if top <= mark {
                top = mark;
                at = cell;
            }
        }
        start += run + 1; // past the one that is not
    }
}

// The first place under the least limit that has one.
#[derive(Clone, Copy, Debug, PartialEq, Eq)]
pub struct Least {
    pub start: usize,
    pub limit: usize,
}

// The place under the least of the limits 0 to `most` that has one. Most stores find one under 0.
pub fn find_place(marks: &[u8], need: usize, most: usize) -> Option<Least>
    requires { (0 < need) × (most ≤ 30) }
    ensures { LeastPlace marks.now need most (start_of result) (limit_of result) }
{
    if let Some(start) = first_fit(marks, 0, need).fit {
        return Some(Least { start, limit: 0 });
    }
    if most == 0 {
        return None;
    }
    let limit = least_limit(marks, need, most)?;
    let start = first_fit(marks, limit as u8, need).fit?;
    Some(Least { start, limit })
}
