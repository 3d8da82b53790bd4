//! Sources and summaries written out by hand.

use generated_source::{Counts, generated_source, lattice_bytes, put_summary};
use std::rt::HostRuntime;
use std::test::Fail;

const ONE: &[u8] = b"int f0(int x) { return x; }
int f1(int x) { return f0(f0(x)); }
$tainted int a;
$untainted int b;
void top(void) { b = f1(a); }
";

const TWO: &[u8] = b"int f0(int x) { return x; }
int f1(int x) { return f0(f0(x)); }
int f2(int x) { return f1(f1(x)); }
$tainted int a;
$untainted int b;
void top(void) { b = f2(a); }
";

const TWELVE: &[u8] = b"int f0(int x) { return x; }
int f1(int x) { return f0(f0(x)); }
int f2(int x) { return f1(f1(x)); }
int f3(int x) { return f2(f2(x)); }
int f4(int x) { return f3(f3(x)); }
int f5(int x) { return f4(f4(x)); }
int f6(int x) { return f5(f5(x)); }
int f7(int x) { return f6(f6(x)); }
int f8(int x) { return f7(f7(x)); }
int f9(int x) { return f8(f8(x)); }
int f10(int x) { return f9(f9(x)); }
int f11(int x) { return f10(f10(x)); }
int f12(int x) { return f11(f11(x)); }
$tainted int a;
$untainted int b;
void top(void) { b = f12(a); }
";

#[test]
fn each_function_calls_the_one_before_it_twice(rt: HostRuntime) -> Result<(), Fail> {
    assert!(rt; generated_source(rt.alloc(), 1)?.as_slice() == ONE);
    assert!(rt; generated_source(rt.alloc(), 2)?.as_slice() == TWO);
    assert!(rt; generated_source(rt.alloc(), 12)?.as_slice() == TWELVE);
    Ok(())
}

#[test]
fn the_largest_source_has_a_line_for_each_function(rt: HostRuntime) -> Result<(), Fail> {
    let text = generated_source(rt.alloc(), 1000)?;
    let mut lines: u32 = 0;
    for byte in &text {
        if *byte == b'\n' {
            lines = lines.saturating_add(1);
        }
    }
    assert!(rt; lines == 1004);
    Ok(())
}

#[test]
fn the_lattice_has_five_lines(rt: HostRuntime) -> Result<(), Fail> {
    let text = b"partial order {
  $untainted [level = value, sign = neg]
  $tainted [level = value, sign = pos]
  $untainted < $tainted
}
";
    assert!(rt; lattice_bytes() == text.as_slice());
    Ok(())
}

#[test]
fn a_summary_has_six_lines(rt: HostRuntime) -> Result<(), Fail> {
    let mut text = Vec::new(rt.alloc());
    let rejected = Counts {
        variables: 577,
        constraints: 490,
        sites: 81,
        errors: 1,
    };
    put_summary(&mut text, 40, &rejected)?;
    let wanted = b"generated 40
variables 577
constraints 490
sites 81
rejected
errors 1
";
    assert!(rt; text.as_slice() == wanted.as_slice());
    let mut none = Vec::new(rt.alloc());
    let accepted = Counts {
        errors: 0,
        ..rejected
    };
    put_summary(&mut none, 40, &accepted)?;
    let wanted = b"generated 40
variables 577
constraints 490
sites 81
accepted
errors 0
";
    assert!(rt; none.as_slice() == wanted.as_slice());
    Ok(())
}
