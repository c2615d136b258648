//! Laws: functions that do nothing. Where one is called, the proof of the caller knows what it
//! says.
use sf_value::Bare;
use std::test::Fail;

#[test]
fn laws_are_called(rt: HostRuntime) -> Result<(), Fail> {
    sf_value::laws::settles_in_parts::<Bare>();
    sf_value::laws::canon_spells();
    sf_value::laws::spelled_is_valid();
    sf_value::laws::canon_is_short();
    sf_value::laws::spells_in_both();
    sf_value::laws::table_is_utf8();
    sf_parse::laws::one_value();
    sf_parse::laws::machine_reads();
    sf_parse::laws::refusals_are_exact();
    sf_parse::laws::only_new_types_differ();
    sf_parse::laws::what_was_taken();
    sf_parse::laws::what_may_follow();
    sf_parse::laws::runs_are_the_set();
    sf_field::laws::normalising_settles();
    sf_field::laws::equal_by_text();
    sf_field::laws::built_reads_back();
    sf_field::laws::set_is_read();
    sf_use::laws::reads_back();
    sf_use::laws::one_choice();
    sf_use::laws::priority_is_kept();
    Ok(())
}
