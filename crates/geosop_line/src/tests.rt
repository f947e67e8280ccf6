use crate::{Config, LineFault, Source, UsageFault, law_a_line_has_one_answer, read_line};
use im_matrix::{Name, Pattern};
use point_set::Rule;
use std::alloc::{AllocError, Global};
use std::test::Fail;
use topo_pred::Query;

/// The words of a line in which a bar stands between two words.
fn words_of(alloc: Global, line: &str) -> Result<Vec<String>, AllocError> {
    let mut words = Vec::new(alloc);
    for word in line.split('|') {
        words.push(String::from_str(alloc, word)?)?;
    }
    Ok(words)
}

fn read(alloc: Global, line: &str) -> Result<Config, LineFault> {
    let words = words_of(alloc, line)?;
    read_line(alloc, words.as_slice())
}

fn is_text(source: &Source, bytes: &[u8]) -> bool {
    match source {
        Source::Text(word) => word.bytes() == bytes,
        _ => false,
    }
}

fn is_file(source: &Source, name: &[u8]) -> bool {
    match source {
        Source::File(word) => word.bytes() == name,
        _ => false,
    }
}

#[test]
fn two_points_are_related(rt: HostRuntime) -> Result<(), Fail> {
    let config = read(rt.alloc(), "geosop|-a|POINT (0 0)|-b|POINT (1 1)|relate")?;
    assert!(rt; is_text(&config.a, b"POINT (0 0)"));
    assert!(rt; is_text(&config.b, b"POINT (1 1)"));
    assert_eq!(rt; config.query, Query::Relate);
    assert_eq!(rt; config.rule, Rule::Mod2);
    assert_eq!(rt; config.threads, 1);
    assert_eq!(rt; config.scale.digits, 0);
    assert_eq!(rt; config.sample, None);
    assert!(rt; !config.quiet && !config.prepared);
    Ok(())
}

#[test]
fn each_option_is_read(rt: HostRuntime) -> Result<(), Fail> {
    let line =
        "geosop|-q|--prepared|--threads|064|--scale=0|--rule|endpoint|-a|stdin|-b=|--|relatePattern|T*F**F***";
    let config = read(rt.alloc(), line)?;
    let pattern = Pattern::parse("T*F**F***")?;
    assert!(rt; matches!(config.a, Source::Stdin));
    assert!(rt; is_file(&config.b, b""));
    assert_eq!(rt; config.query, Query::Match(pattern));
    assert_eq!(rt; config.rule, Rule::Endpoint);
    assert_eq!(rt; config.threads, 64);
    assert!(rt; config.quiet && config.prepared);
    Ok(())
}

#[test]
fn a_sample_has_no_sources(rt: HostRuntime) -> Result<(), Fail> {
    let config = read(rt.alloc(), "geosop|--sample|2|relate")?;
    assert_eq!(rt; config.sample, Some(2));
    assert!(rt; is_text(&config.a, b""));
    assert!(rt; is_text(&config.b, b""));
    let last = read(rt.alloc(), "geosop|--sample|0200|--quiet|containsProperly")?;
    assert_eq!(rt; last.sample, Some(200));
    assert_eq!(rt; last.query, Query::Named(Name::ContainsProperly));
    Ok(())
}

const LINE: [&str; 11] = [
    "geosop|-a|-5|-b|stdin|relate",
    "geosop|--sample|2|-qq|relate",
    "geosop|--sample|2|--quiet=x|relate",
    "geosop|--sample|2|--rule|mod2|--rule|mod2|relate",
    "geosop|--sample|2|relate|F|F",
    "geosop|--sample|2|--thread|1|relate",
    "geosop|--sample|2|relate|-a",
    "geosop|--help",
    "geosop|-h",
    "geosop|-V",
    "geosop|--version",
];

const SAMPLE: [&str; 8] = [
    "geosop|--sample|2|-a|stdin|relate",
    "geosop|--sample|2|-b|stdin|relate",
    "geosop|--sample|0|relate",
    "geosop|--sample|201|relate",
    "geosop|--sample|00002|relate",
    "geosop|--sample|+2|relate",
    "geosop|--sample=|relate",
    "geosop|--sample|x|near|--rule|odd|--threads|0|--scale|x",
];

const SOURCES: [&str; 6] = [
    "geosop",
    "geosop|relate",
    "geosop|-a|stdin|relate",
    "geosop|-b|stdin|relate",
    "geosop|-a|stdin|-b|stdin|relate",
    "geosop|-a|stdin|near|F|--rule|odd|--threads|0|--scale|x",
];

const OPERATION: [&str; 4] = [
    "geosop|-a|POINT (0 0)|-b|POINT (0 0)",
    "geosop|-a|POINT (0 0)|-b|POINT (0 0)|near",
    "geosop|--sample|2|RELATE",
    "geosop|--sample|2|near|F|--rule|odd|--threads|0|--scale|x",
];

const ARGUMENT: [&str; 3] = [
    "geosop|--sample|2|relate|F",
    "geosop|--sample|2|relatePattern",
    "geosop|--sample|2|touches|F|--rule|odd|--threads|0|--scale|x",
];

const BAD_MATCH: [&str; 2] = [
    "geosop|--sample|2|relatePattern|T*F**F**",
    "geosop|--sample|2|relatePattern|T*F**F**|--rule|odd|--threads|0",
];

const RULE_NAME: [&str; 3] = [
    "geosop|--sample|2|--rule|odd|relate",
    "geosop|--sample|2|--rule|Mod2|relate",
    "geosop|--sample|2|touches|--rule|odd|--threads|0|--scale|x",
];

const THREADS: [&str; 3] = [
    "geosop|--sample|2|--threads|65|relate",
    "geosop|--sample|2|--threads|0|relate",
    "geosop|--sample|2|touches|--threads|0|--scale|x",
];

const SCALE: [&str; 2] = [
    "geosop|--sample|2|--scale|1|relate",
    "geosop|--sample|2|--scale|00|relate",
];

/// Whether each line has this first fault.
fn have_fault(alloc: Global, lines: &[&str], fault: UsageFault) -> bool {
    lines.iter().all(|line| read(alloc, line).err() == Some(LineFault::Usage(fault)))
}

#[test]
fn each_fault_is_the_first(rt: HostRuntime) {
    let alloc = rt.alloc();
    assert!(rt; have_fault(alloc, &LINE, UsageFault::Line));
    assert!(rt; have_fault(alloc, &SAMPLE, UsageFault::Sample));
    assert!(rt; have_fault(alloc, &SOURCES, UsageFault::Sources));
    assert!(rt; have_fault(alloc, &OPERATION, UsageFault::Operation));
    assert!(rt; have_fault(alloc, &ARGUMENT, UsageFault::Argument));
    assert!(rt; have_fault(alloc, &BAD_MATCH, UsageFault::BadMatch(8)));
    assert!(rt; have_fault(alloc, &RULE_NAME, UsageFault::RuleName));
    assert!(rt; have_fault(alloc, &THREADS, UsageFault::Threads));
    assert!(rt; have_fault(alloc, &SCALE, UsageFault::Scale));
    law_a_line_has_one_answer();
    let no_words = read_line(alloc, &[]).err();
    assert_eq!(rt; no_words, Some(LineFault::Usage(UsageFault::Sources)));
}
