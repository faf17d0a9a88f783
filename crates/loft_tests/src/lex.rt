//! The tokens of a text by themselves; the program reads them with what stands on them.

use loft_lex::{Sign, Symbol, What, Word, lex, symbols};
use std::alloc::Global;

/// The offset of a symbol of `print 12;`, where it stands there.
fn offset(symbol: Symbol<'_>) -> Option<u32> {
    match (symbol.at, symbol.what) {
        (0, What::Word(Word::Print)) | (6, What::Number(12)) | (8, What::Sign(Sign::Semicolon)) =>
            Some(symbol.at),
        _ => None,
    }
}

/// The offsets of three symbols.
fn offsets(found: &[Symbol<'_>]) -> [Option<u32>; 3] {
    if found.len() != 3 {
        return [None, None, None];
    }
    [offset(found[0]), offset(found[1]), offset(found[2])]
}

/// The offsets of the symbols of `print 12;`.
fn offsets_of_print(alloc: Global) -> Option<[Option<u32>; 3]> {
    let text = b"print 12;";
    let tokens = lex(alloc, text).ok()?;
    let found = symbols(alloc, text, tokens.as_slice()).ok()?;
    Some(offsets(found.as_slice()))
}

#[test]
fn tokens_with_their_offsets(rt: HostRuntime) {
    assert_eq!(rt;
        offsets_of_print(rt.alloc()),
        Some([Some(0), Some(6), Some(8)])
    );
}
