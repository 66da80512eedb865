// Tables of values, and powers.

use crate::tools::{table_for, value_of};
use length::kind::Length;
use length::value::Capped;
use machine::kind::Machine;
use measure::Measure;
use measure::values::{FillRefusal, fill_values, power};
use model::Rule;
use std::array;
use std::test::Fail;

// A machine in no simple order.
fn mixed_machine() -> Result<Machine, Fail> {
    let next = array::from_fn(|i| (i * 5 % 11 % 8) as u8);
    Ok(Machine::new(next, [0; 26])?)
}

#[test]
fn power_is_so_many_joins(rt: HostRuntime) -> Result<(), Fail> {
    let heap = rt.alloc();
    let kind = mixed_machine()?;
    let value = value_of(heap, &kind, &[], &[3, 20, 11])?;
    let mut joined = kind.empty();
    for n in 0..300 {
        let fast = power(&kind, value, n);
        assert!(rt; fast == joined);
        joined = kind.join(joined, value);
    }
    Ok(())
}

#[test]
fn rules_stand_for_what_they_spell(rt: HostRuntime) -> Result<(), Fail> {
    let heap = rt.alloc();
    let kind = mixed_machine()?;
    // ab, ababab, abababc
    let rules = [Rule::Pair(0, 1), Rule::Block(26, 3), Rule::Pair(27, 2)];
    let made = value_of(heap, &kind, &rules, &[28, 26, 5])?;
    let spelled = value_of(heap, &kind, &[], &[0, 1, 0, 1, 0, 1, 2, 0, 1, 5])?;
    assert!(rt; made == spelled);
    Ok(())
}

#[test]
fn further_entries_are_untouched(rt: HostRuntime) -> Result<(), Fail> {
    let kind = Length::new([0; 26], [0; 26])?;
    let mut table = table_for(rt.alloc(), &kind, 30)?;
    table.fill(Capped { count: 77 });
    fill_values(
        &kind,
        &[Rule::Block(3, 5), Rule::Pair(26, 4)],
        table.as_mut_slice(),
    )?;
    assert!(rt; table.len() == 30);
    assert_eq!(rt; table[25].count, 1);
    assert_eq!(rt; table[26].count, 5);
    assert_eq!(rt; table[27].count, 6);
    assert_eq!(rt; table[28].count, 77);
    assert_eq!(rt; table[29].count, 77);
    Ok(())
}

#[test]
fn refused_tables_are_untouched(rt: HostRuntime) -> Result<(), Fail> {
    let kind = Length::new([0; 26], [0; 26])?;
    let mut table = table_for(rt.alloc(), &kind, 27)?;
    assert_eq!(rt;
        fill_values(
            &kind,
            &[Rule::Block(0, 2), Rule::Pair(26, 0)],
            table.as_mut_slice(),
        ),
        Err(FillRefusal::SmallTable)
    );
    assert_eq!(rt;
        fill_values(&kind, &[Rule::Block(26, 2)], table.as_mut_slice()),
        Err(FillRefusal::OutOfTurn)
    );
    for entry in table.as_slice() {
        assert_eq!(rt; entry.count, 0);
    }
    fill_values(&kind, &[Rule::Block(25, 2)], table.as_mut_slice())?;
    Ok(())
}

#[test]
fn a_small_table_is_told_before_a_rule_out_of_turn(rt: HostRuntime) -> Result<(), Fail> {
    let kind = Length::new([0; 26], [0; 26])?;
    let mut table = table_for(rt.alloc(), &kind, 26)?;
    assert_eq!(rt;
        fill_values(&kind, &[Rule::Block(26, 2)], table.as_mut_slice()),
        Err(FillRefusal::SmallTable)
    );
    Ok(())
}
