//! What no clause says: the place of each fault of a text, and what well-formed files read as, by hand.

use lattice_core::{LatticeFault, Lattices};
use lattice_file::{LatticeFileFault, read_lattices};
use std::alloc::{AllocError, Global};
use std::test::Fail;

/// Adds the word of a reason and the names that it gives.
fn reason(text: &mut Vec<u8>, fault: &LatticeFault) -> Result<(), AllocError> {
    let (kind, one, other) = match fault {
        LatticeFault::TooMany => ("too many", None, None),
        LatticeFault::Repeated(a) => ("repeated ", Some(a), None),
        LatticeFault::UnknownName(a) => ("unknown ", Some(a), None),
        LatticeFault::LevelMix(a, b) => ("mixed ", Some(a), Some(b)),
        LatticeFault::Cycle(a, b) => ("cycle ", Some(a), Some(b)),
        LatticeFault::NotALattice(a, b) => ("no lattice ", Some(a), Some(b)),
        LatticeFault::NoMemory => ("no memory", None, None),
    };
    text.extend_from_slice(kind.as_bytes())?;
    if let Some(name) = one {
        text.extend_from_slice(name.bytes())?;
    }
    if let Some(name) = other {
        text.extend_from_slice(b" ")?;
        text.extend_from_slice(name.bytes())?;
    }
    Ok(())
}

/// The outcome in words, or how many lattices there are.
fn shown(
    alloc: Global,
    outcome: Result<Lattices, LatticeFileFault>,
) -> Result<Vec<u8>, AllocError> {
    let mut text = Vec::new(alloc);
    match outcome {
        Ok(lattices) => text.extend_from_slice(format!(in alloc;
            "{}",
            lattices.len()
        )?.as_bytes())?,
        Err(LatticeFileFault::Grammar { line, column }) => {
            text.extend_from_slice(format!(in alloc; "at {line}:{column}")?.as_bytes())?
        }
        Err(LatticeFileFault::TooManyLattices) => text.extend_from_slice(b"too many lattices")?,
        Err(LatticeFileFault::NoMemory) => text.extend_from_slice(b"no memory")?,
        Err(LatticeFileFault::SharedName(name)) => {
            text.extend_from_slice(b"shared ")?;
            text.extend_from_slice(name.bytes())?;
        }
        Err(LatticeFileFault::Block(number, fault)) => {
            text.extend_from_slice(format!(in alloc; "block {number} ")?.as_bytes())?;
            reason(&mut text, &fault)?;
        }
    }
    Ok(text)
}

#[test]
fn accesses_are_bounded_in_wider_c_alone(rt: HostRuntime) -> Result<(), Fail> {
    let alloc = rt.alloc();
    let cases = [
        ("partial order {$a[deref=access]}", true, "1"),
        ("partial order {$a[deref=access]}", false, "at 1:25"),
        (
            "partial order {$a[deref=access,deref=yes]}",
            true,
            "at 1:32",
        ),
        ("partial order {$a[deref=accesses]}", true, "at 1:31"),
        ("partial order {$a[write=access]}", true, "at 1:25"),
    ];
    for (text, wide, expected) in cases {
        let outcome = shown(alloc, read_lattices(alloc, wide, text.as_bytes()))?;
        assert_eq!(rt; outcome.as_slice(), expected.as_bytes());
    }
    Ok(())
}

#[test]
fn each_text_reads_or_fails_at_its_place(rt: HostRuntime) -> Result<(), Fail> {
    let alloc = rt.alloc();
    let cases = [
        ("", "0"),
        (" \t\r\n", "0"),
        ("// only a comment", "0"),
        ("/* a */", "0"),
        ("/***/", "0"),
        ("/* a", "at 1:5"),
        ("/**", "at 1:4"),
        ("/*/", "at 1:4"),
        ("/", "at 1:2"),
        ("/x", "at 1:2"),
        ("*", "at 1:1"),
        ("order", "at 1:1"),
        ("partail", "at 1:5"),
        ("partial", "at 1:8"),
        ("parti {", "at 1:6"),
        ("partialorder", "at 1:8"),
        ("partial order [", "at 1:16"),
        ("partial order [x", "at 1:16"),
        ("partial order {}", "at 1:16"),
        ("partial order {$a[level=ref]}", "1"),
        ("partial\r\norder{$a[sign=pos,write=yes]}", "1"),
        ("partial order {$a [color = \"red\"]}", "1"),
        (
            "partial order {const < $a const[level=value] $a[level=value]}",
            "1",
        ),
        (
            "partial order {restrict[deref=yes] volatile[write=yes] restrict<volatile}",
            "1",
        ),
        ("partial order {$a[level=ref] /* x */ } // end", "1"),
        (
            "partial order {$a[level=ref]}\npartial order {$b[level=value]}",
            "2",
        ),
        ("partial order {$a []}", "at 1:20"),
        ("partial order {$a [level]}", "at 1:25"),
        ("partial order {$a [level = up]}", "at 1:28"),
        ("partial order {$a [level = refx]}", "at 1:31"),
        ("partial order {$a [level = re]}", "at 1:30"),
        ("partial order {$a [level = ref, level = ref]}", "at 1:33"),
        ("partial order {$a [sign = neg, s", "at 1:32"),
        (
            "partial order {$a [level=ref,sign=eq,color=\"\",write=yes,deref=yes,",
            "at 1:66",
        ),
        ("partial order {$a [color = \"re\n", "at 1:31"),
        ("partial order {$a [color = \"re", "at 1:31"),
        ("partial order {$a [color = red]}", "at 1:28"),
        ("partial order {$a[write=no]}", "at 1:25"),
        ("partial order {$1", "at 1:17"),
        ("partial order {$a$b", "at 1:18"),
        ("partial order {$a $b", "at 1:19"),
        ("partial order {constx", "at 1:21"),
        ("partial order {$a < ", "at 1:21"),
        ("partial order {$a < $b}", "at 1:23"),
        ("partial order {$a[level=ref] < $b", "at 1:30"),
        ("partial order {$a[level=ref]}\n\n x", "at 3:2"),
        ("partial order {$a[level=ref] $a[level=ref]} x", "at 1:45"),
        (
            "partial order {$a[level=ref] $a[level=ref]}",
            "block 1 repeated $a",
        ),
        (
            "partial order {$a[level=ref]} partial order {$b[level=ref] $c[level=ref]}",
            "block 2 no lattice $b $c",
        ),
        (
            "partial order {$a[level=ref] $b[level=value]}",
            "block 1 mixed $a $b",
        ),
        ("partial order {$a[level=ref] $a<$b}", "block 1 unknown $b"),
        (
            "partial order {$a[level=ref] $b[level=ref] $a<$b $b<$a}",
            "block 1 cycle $a $b",
        ),
        (
            "partial order {$a[level=ref]}partial order {$b[level=ref] $a[level=ref] $b<$a}",
            "shared $a",
        ),
    ];
    for (text, want) in cases {
        if text.len() < 1000 {
            let outcome = shown(alloc, read_lattices(alloc, false, text.as_bytes()))?;
            assert_eq!(rt; outcome.as_slice(), want.as_bytes());
        }
    }
    Ok(())
}

#[test]
fn a_place_is_the_byte_with_which_no_text_begins_any_more(rt: HostRuntime) -> Result<(), Fail> {
    let alloc = rt.alloc();
    let cases = [
        ("   ", "0"),
        ("part ial", "at 1:5"),
        ("part/", "at 1:5"),
        ("partial/", "at 1:9"),
        ("partial/x", "at 1:9"),
        ("partial //", "at 1:11"),
        ("partial // order\n", "at 2:1"),
        ("/* a */ /", "at 1:10"),
        ("/* a * /", "at 1:9"),
        ("// a\n/", "at 2:2"),
        ("partial order {$", "at 1:17"),
        ("partial order {$ a", "at 1:17"),
        ("partial order {$_a", "at 1:17"),
        ("partial order {const$a[", "at 1:21"),
        ("partial order {co]", "at 1:18"),
        ("partial order {level", "at 1:16"),
        ("partial order {partial", "at 1:16"),
        ("partial order {$a[up", "at 1:19"),
        ("partial order {$a[level level", "at 1:25"),
        ("partial order {$a[level==", "at 1:25"),
        ("partial order {$a[level=ref,l", "at 1:29"),
        ("partial order {$a[level=ref,]", "at 1:29"),
        ("partial order {$a[level=ref,sign=v", "at 1:34"),
        ("partial order {$a[sign=po]", "at 1:26"),
        ("partial order {$a[sign=en", "at 1:25"),
        ("partial order {$a[sign=posx", "at 1:27"),
        ("partial order {$a[write=y]", "at 1:26"),
        ("partial order {$a[deref=ye", "at 1:27"),
        ("partial order {$a[color=yes", "at 1:25"),
        ("partial order {$a[color=\"a\"b", "at 1:28"),
        ("partial order {$a[color=\"a\nb\"", "at 1:27"),
        ("partial order {$a[level=\"ref\"", "at 1:25"),
        ("partial order {$a[color=\"\",color=", "at 1:28"),
        ("partial order {$a[write=yes,deref=yes,w", "at 1:39"),
        ("partial order {$a[sign = eq,,", "at 1:29"),
        ("partial order {$a<$b}", "at 1:21"),
        ("partial order {$a[sign=eq]}}", "at 1:28"),
        ("partial order {$a[sign=eq]};", "at 1:28"),
        ("partial order{$a[sign=eq]$b[sign=eq]$a<$b}", "1"),
        ("partial order {$a < $a $a[sign=eq]}", "1"),
    ];
    for (text, want) in cases {
        if text.len() < 1000 {
            let outcome = shown(alloc, read_lattices(alloc, false, text.as_bytes()))?;
            assert_eq!(rt; outcome.as_slice(), want.as_bytes());
        }
    }
    Ok(())
}

#[test]
fn a_chain_of_64_reads_and_65_entries_are_too_many(rt: HostRuntime) -> Result<(), Fail> {
    let alloc = rt.alloc();
    for count in 64..66 {
        let mut text = Vec::new(alloc);
        text.extend_from_slice(b"partial order {$e0[sign=eq]")?;
        let mut below = 0;
        for elem in 1..count {
            text.extend_from_slice(format!(in alloc;
                " $e{elem}[sign=eq] $e{below}<$e{elem}"
            )?.as_bytes())?;
            below = elem;
        }
        text.extend_from_slice(b"}")?;
        if text.len() < 10000 {
            let outcome = shown(alloc, read_lattices(alloc, false, text.as_slice()))?;
            let want = if count == 64 { "1" } else { "block 1 too many" };
            assert_eq!(rt; outcome.as_slice(), want.as_bytes());
        }
    }
    Ok(())
}

#[test]
fn seventeen_blocks_are_too_many(rt: HostRuntime) -> Result<(), Fail> {
    let alloc = rt.alloc();
    let mut text = Vec::new(alloc);
    for count in 1..18 {
        text.extend_from_slice(format!(in alloc;
            "partial order {{$a{count}[sign=pos]}}"
        )?.as_bytes())?;
        if text.len() < 1000 {
            let outcome = shown(alloc, read_lattices(alloc, false, text.as_slice()))?;
            let want = if count < 17 {
                format!(in alloc; "{count}")?
            } else {
                format!(in alloc; "too many lattices")?
            };
            assert_eq!(rt; outcome.as_slice(), want.as_bytes());
        }
    }
    Ok(())
}
