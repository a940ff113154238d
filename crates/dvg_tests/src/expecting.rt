//! What tests expect. Each is one function in the place of many assertions, which would be proved wherever they stand.

use std::alloc::{AllocError, Global};
use std::fmt::{Debug, Display};
use std::process::Abort;

/// Stops the test unless something is so, and tells at which row or place it is not.
pub fn expect<P: Debug>(rt: &impl Abort, is: bool, at: &P) {
    assert!(rt; is, "at {at:?}");
}

/// Stops the test unless two values are the same, and tells at which row or place they are not.
pub fn expect_same<T: PartialEq + Debug, P: Debug>(rt: &impl Abort, got: &T, want: &T, at: &P) {
    assert_eq!(rt; got, want, "at {at:?}");
}

/// Stops the test unless the text of a value is this prefix and then this text.
pub fn expect_shown<T: Display>(
    rt: &impl Abort,
    alloc: Global,
    value: &T,
    prefix: &str,
    text: &str,
) {
    let shown = format!(in alloc; "{value}").expect(rt, "memory for a text");
    assert_eq!(rt; shown.strip_prefix(prefix), Some(text));
}

/// A fault, its number and its text.
pub type FaultRow<F> = (F, u8, &'static str);

/// Stops the test unless each fault has its number, which this gives, and its text.
pub fn expect_faults<F: Display + Debug, N: Fn(&F) -> u8>(
    rt: &impl Abort,
    alloc: Global,
    faults: &[FaultRow<F>],
    number_of: N,
)
    requires { N.IsAlwaysCallable number_of }
{
    for (fault, number, text) in faults {
        expect_same(rt, &number_of(fault), number, text);
        expect_shown(rt, alloc, fault, "", text);
    }
}

/// Stops the test unless there are as many values as a table has lines, and each value's line, which this gives, is its own.
pub fn expect_lines<T: Debug, L: Fn(&T) -> Result<String, AllocError>>(
    rt: &impl Abort,
    values: &[T],
    table: &str,
    line_of: L,
)
    requires { L.IsAlwaysCallable line_of }
{
    let mut lines = table.lines();
    for value in values {
        let line = line_of(value).expect(rt, "memory for a line");
        expect_same(rt, &Some(line.as_str()), &lines.next(), value);
    }
    expect_same(rt, &lines.next(), &None, &table);
}
