// Floating-point numbers that a program makes.
use super::unwritten::{is_never_written, is_no_vector};
use std::test::Fail;

const NAN_REFUSED: &str = "For portability reasons we do not allow to serialize NaNs.";

#[test]
fn a_nan_is_refused(rt: HostRuntime) -> Result<(), Fail> {
    is_never_written(rt, "f32", &(0.0f32 / 0.0), NAN_REFUSED)?;
    is_never_written(rt, "f64", &(0.0f64 / 0.0), NAN_REFUSED)?;
    let mut numbers = vec![in rt.alloc(); 1.0f64; 40]?;
    numbers.push(0.0 / 0.0)?;
    is_no_vector(rt, "Vec<f64>", &numbers, NAN_REFUSED)
}
