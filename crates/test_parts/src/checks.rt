//! Helpers of tests.
//!
//! Functions return their result, and only the test passes or fails by that: the prover needs a
//! second for each `assert!` of a function, and two or three for each `assert_eq!`.
use std::fmt::Debug;
use std::test::Fail;

/// Passes if all results were as expected.
pub fn pass<E: Debug + Drop>(found: Result<bool, E>) -> Result<(), Fail> {
    match found {
        Ok(holds) => pass_if(holds),
        Err(error) => Err(Fail::from(error)),
    }
}

/// Passes if this holds.
pub fn pass_if(holds: bool) -> Result<(), Fail> {
    if holds {
        return Ok(());
    }
    Err(Fail::new("something was not as it should be"))
}

/// Passes if all rows held, and otherwise reports how many did before one did not.
pub fn pass_all<E: Debug + Drop>(held: Result<usize, E>, rows: usize) -> Result<(), Fail> {
    match held {
        Ok(count) if count == rows => Ok(()),
        Ok(count) => Err(Fail::new(format_args!("{count} of {rows} rows held before one did not"))),
        Err(error) => Err(Fail::from(error)),
    }
}

// The number of rows that hold, up to the first that does not.
fn count_held<T, E, F: FnMut(&T) -> Result<bool, E>>(rows: &[T], mut holds: F) -> Result<usize, E>
    requires { F.IsAlwaysCallable holds }
{
    let mut count = 0usize;
    for row in rows {
        if !holds(row)? {
            return Ok(count);
        }
        count = count.saturating_add(1);
    }
    Ok(count)
}

/// Passes if each row holds, in order.
pub fn pass_each<T, E: Debug + Drop, F: FnMut(&T) -> Result<bool, E>>(
    rows: &[T],
    holds: F,
) -> Result<(), Fail>
    requires { F.IsAlwaysCallable holds }
{
    pass_all(count_held(rows, holds), rows.len())
}

/// Returns whether this holds of the inputs of a test. Then std's `drop` drops them, so that no
/// test unfolds it.
pub fn lend<T: Drop, E: Drop, F: FnOnce(&mut T) -> bool + Drop>(
    made: Result<T, E>,
    holds: F,
) -> Result<bool, E>
    requires { F.IsAlwaysCallable holds }
{
    let mut value = made?;
    let all = holds(&mut value);
    drop(value);
    Ok(all)
}
