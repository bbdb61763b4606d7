// Texts with errors, and texts that were changed at random.
use crate::error::TextError;
use crate::parse::parse_items;
use borsh_source::{CompileError, Compiled, Source, compile};
use std::alloc::{AllocError, Global};
use std::str;
use std::test::Fail;

/// How many changed texts are read. `tools/changed` sets another number, and runs this unproved.
const CHANGED: u32 = 1000;

const IDL: &str =
    "{\"accounts\":[{\"name\":\"A\",\"type\":{\"kind\":\"struct\",\"fields\":[{\"name\":\"x\",\"type\":{\"vec\":{\"defined\":\"B\"}}},{\"name\":\"m\",\"type\":{\"map\":[\"u8\",{\"array\":[\"u16\",2]}]}}]}}],\n\"types\":[{\"name\":\"B\",\"generics\":[],\"type\":{\"kind\":\"enum\",\"variants\":[{\"name\":\"N\"},{\"name\":\"S\",\"fields\":[{\"name\":\"n\",\"type\":\"string\"}]},{\"name\":\"R\",\"fields\":[\"bytes\",\"pubkey\"]}]}}]}";

const TEXT: &str =
    "pub mod m { /* a /* b */ */ #[borsh(use_discriminant = true)] enum E<'a, T: Fn(u8) -> u8> where T: X { A = 0x1_0u8, B(&'a [T]), } }\nconst N: usize = (3 + 4) * 2;\n#[derive(D)] struct S<const K: usize = 3>(#[borsh(skip)] pub(crate) [u8; N << 1], pub Vec<Option<E<'static, 7>>>, String);\nimpl<T> X for S { fn f() { \"}\"; r#\"}\"#; '}'; b'\\''; } }\nmacro_rules! m { ($a:ty) => {}; } type B = (u8, ::std::m::X<{ N - 1 }>, &dyn Fn());";

const PALETTE: &[u8] = b"{}()[]<>:;,=#!'\"r/*\\-&|0x_aE \n.bm";

/// The next number of a sequence that looks random.
fn next(seed: u64) -> u64 {
    let mixed = seed ^ (seed >> 12);
    mixed
        .wrapping_mul(6364136223846793005)
        .wrapping_add(1442695040888963407)
}

fn picked(seed: u64, count: usize) -> usize {
    if count == 0 {
        return 0;
    }
    (seed >> 33) as usize % count
}

/// The text with some bytes replaced, put in or taken out.
fn changed(alloc: Global, text: &[u8], seed: u64) -> Result<Vec<u8>, AllocError> {
    let mut bytes = Vec::from_slice(alloc, text)?;
    let mut seed = seed;
    for _ in 0..4 {
        seed = next(seed);
        let at = picked(seed, bytes.len());
        seed = next(seed);
        let byte = match PALETTE.get(picked(seed, PALETTE.len())) {
            Some(byte) => *byte,
            None => b' ',
        };
        seed = next(seed);
        match (picked(seed, 3), bytes.get_mut(at)) {
            (0, Some(place)) => *place = byte,
            (1, Some(_)) => {
                let _taken = bytes.remove(at);
            }
            _ => bytes.push(byte)?,
        }
    }
    Ok(bytes)
}

/// Whether compiling says what can be: a root that is defined, or a place in the text.
fn is_told(compiled: &Result<Compiled, CompileError>, lines: usize) -> bool {
    match compiled {
        Ok(compiled) => compiled
            .definitions
            .contains_key(compiled.declaration.as_str()),
        Err(CompileError::Refused { place, .. }) => place.line as usize <= lines,
        Err(CompileError::OutOfMemory) => false,
    }
}

fn are_compiled(alloc: Global, source: &Source, lines: usize) -> bool {
    for root in 0..source.types.len() {
        let compiled = compile(alloc, source, root);
        if !is_told(&compiled, lines) {
            return false;
        }
    }
    true
}

/// Whether reading says what can be: no more items than bytes, or a place in the text.
fn is_read(alloc: Global, bytes: &[u8]) -> bool {
    let Ok(text) = str::from_utf8(bytes) else {
        return false;
    };
    let lines = bytes
        .iter()
        .filter(|byte| **byte == b'\n')
        .count()
        .saturating_add(1);
    match parse_items(alloc, text) {
        Ok(source) => source.items.len() <= text.len() && are_compiled(alloc, &source, lines),
        Err(TextError::Refused { place, .. }) => place.line >= 1 && place.line as usize <= lines,
        Err(_) => false,
    }
}

fn are_read(alloc: Global, count: u32) -> Result<bool, AllocError> {
    let mut seed: u64 = 7;
    for _ in 0..count {
        seed = next(seed);
        let text = if picked(seed, 2) == 0 { TEXT } else { IDL };
        let bytes = changed(alloc, text.as_bytes(), seed)?;
        if !is_read(alloc, bytes.as_slice()) {
            return Ok(false);
        }
    }
    Ok(true)
}

#[test]
fn reads_changed_texts(rt: HostRuntime) -> Result<(), Fail> {
    assert!(rt; is_read(rt.alloc(), TEXT.as_bytes()) && is_read(rt.alloc(), IDL.as_bytes()));
    let are_read = are_read(rt.alloc(), CHANGED)?;
    assert!(rt; are_read);
    Ok(())
}
