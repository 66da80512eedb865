// A witness of full size, printed and read back.
use listing::{PrintRefusal, ReadRefusal, Reader, print};
use model::{Rule, RuleRefusal};
use std::alloc::Global;
use std::test::Fail;
use witness::{LetterRefusal, Witness};

// The i-th of 512 rules.
fn rule(i: u16) -> Rule {
    if i % 2 == 0 {
        Rule::Pair(i % 26, (i + 1) % 26)
    } else {
        Rule::Block(i % 26, 1_000_000)
    }
}

// Every limit is met: 512 rules, 26 variables and 1,024 letters.
fn full_size(heap: Global) -> Result<Witness, Fail> {
    let mut witness = Witness::new(heap)?;
    for i in 0..512 {
        witness.add_rule(rule(i))?;
    }
    if witness.add_rule(rule(0)) != Err(RuleRefusal::TooManyRules) {
        return Err(Fail::new("one rule too many"));
    }
    for variable in 0..26 {
        witness.start_word(variable)?;
        for i in 0..39 {
            witness.push_letter(537 - i)?;
        }
    }
    for _ in 0..10 {
        witness.push_letter(537)?;
    }
    if witness.push_letter(0) != Err(LetterRefusal::TooManyLetters) {
        return Err(Fail::new("one letter too many"));
    }
    Ok(witness)
}

// A buffer for any listing. (A function of its own, whose proof has no list of so many bytes.)
fn buffer(heap: Global) -> Result<Vec<u8>, Fail> {
    Ok(vec![in heap; 0; 20_000]?)
}

// The listing of a witness.
fn listing_of(heap: Global, witness: &Witness) -> Result<Vec<u8>, Fail> {
    let mut out = buffer(heap)?;
    let n = print(witness, out.as_mut_slice())?;
    out.truncate(n);
    Ok(out)
}

#[test]
fn printed_and_read_back(rt: HostRuntime) -> Result<(), Fail> {
    let heap = rt.alloc();
    let witness = full_size(heap)?;
    let listing = listing_of(heap, &witness)?;
    let mut again = Witness::new(heap)?;
    Reader::new(heap)?.read(&mut again, listing.as_slice())?;
    assert!(rt; listing_of(heap, &again)? == listing);
    for variable in 0..26 {
        assert_eq!(rt; again.length(variable), witness.length(variable));
    }
    Ok(())
}

#[test]
fn a_refused_text_leaves_the_witness(rt: HostRuntime) -> Result<(), Fail> {
    let heap = rt.alloc();
    let mut reader = Reader::new(heap)?;
    let mut witness = full_size(heap)?;
    let listing = listing_of(heap, &witness)?;
    // without the last newline it is refused at its last line, the 541st
    let Some((_, cut)) = listing.as_slice().split_last() else {
        return Err(Fail::new("nothing is printed"));
    };
    assert_eq!(rt;
        reader.read(&mut witness, cut),
        Err(ReadRefusal::NotListing { line: 541 })
    );
    assert!(rt; listing_of(heap, &witness)? == listing);
    // and then the reader reads on
    assert_eq!(rt; reader.read(&mut witness, listing.as_slice()), Ok(()));
    assert!(rt; listing_of(heap, &witness)? == listing);
    Ok(())
}

#[test]
fn a_short_buffer(rt: HostRuntime) -> Result<(), Fail> {
    let witness = Witness::new(rt.alloc())?;
    let mut out = vec![in rt.alloc(); 7u8; 19_999]?;
    assert_eq!(rt;
        print(&witness, out.as_mut_slice()),
        Err(PrintRefusal::BufferTooShort)
    );
    assert!(rt; out.iter().copied().max() == Some(7));
    assert!(rt; out.iter().copied().min() == Some(7));
    Ok(())
}
