use run_command::job::{Job, Kind};
use run_command::words::{Words, read_words};
use std::alloc::Global;
use std::fmt::Write;
use std::process::Abort;
use std::test::Fail;

// Words, each behind a bar, and what they ask for: `make N`, `usage`, or the kind, the roots, the cache and the report where
// they are asked for, and the program.
const ROWS: &str = r#"|p.sps => core . <p.sps>
|- => core . <->
| => core . <>
|--root|a|p => core a <p>
|--root=a|p => core a <p>
|--root=a:b|p => core a|b <p>
|p|--root|a:b:c => core a|b|c <p>
|--root=1:2:3:4:5:6:7:8:9:10:11:12:13:14:15:16|p => core 1|2|3|4|5|6|7|8|9|10|11|12|13|14|15|16 <p>
|--root=a:b|--cache|c|--report|p => core a|b cache=c report <p>
|--cache=c|p => core . cache=c <p>
|--cache=|p => core . cache= <p>
|--report|p => core . report <p>
|p|--report => core . report <p>
|--write|core|p => core . <p>
|--write=xref|p => xref . <p>
|--write|xref|--report|p => xref . report <p>
|--|p => core . <p>
|--|--report => core . <--report>
|--report|--|-x => core . report <-x>
|--root|-|p => core - <p>
|--root=-x|p => core -x <p>
|--root==a|p => core =a <p>
|--cache|-|p => core . cache=- <p>
|--make|1 => make 1
|--make=1000 => make 1000
|--make|20 => make 20
 => usage
|p|q => usage
|--make|0 => usage
|--make|1001 => usage
|--make|07 => usage
|--make|+7 => usage
|--make| => usage
|--make|1  => usage
|--make|x => usage
|--make => usage
|--make|99999999999999999999 => usage
|--make|2|p => usage
|--make|2|--report => usage
|--make|2|--root|a => usage
|--make|2|--cache|c => usage
|--make|2|--write|core => usage
|--help => usage
|-h => usage
|--version => usage
|-V => usage
|--help|p => usage
|--report=x|p => usage
|--report|--report|p => usage
|--root|a|--root|b|p => usage
|--cache|c|--cache|d|p => usage
|--write|core|--write|core|p => usage
|--make|1|--make|1 => usage
|--root|-x|p => usage
|--root|--|p => usage
|--root => usage
|p|--cache => usage
|--root=|p => usage
|--root=a:|p => usage
|--root|:a|p => usage
|--root=a::b|p => usage
|--root=1:2:3:4:5:6:7:8:9:10:11:12:13:14:15:16:17|p => usage
|--write|lisp|p => usage
|--write=|p => usage
|--write|Core|p => usage
|--write|xref|--cache|c|p => usage
|-x => usage
|-x|p => usage
|--roo|a|p => usage
|--rep|p => usage
|--unknown|p => usage
|--|p|q => usage
|-- => usage
|--report => usage
|--root|a => usage
|-r|p => usage
|--Root=a|p => usage"#;

// The words of a line, behind its first bar.
fn given(alloc: Global, line: &str) -> Result<Vec<String>, Fail> {
    let mut words = Vec::new(alloc);
    for word in line.split("|").skip(1) {
        words.push(String::from_str(alloc, word)?)?;
    }
    Ok(words)
}

fn told_roots(told: &mut String, job: &Job) -> Result<(), Fail> {
    let mut before = " ";
    for root in job.roots.as_slice() {
        told.push_str(before)?;
        told.push_str(root.as_str())?;
        before = "|";
    }
    Ok(())
}

fn told_job(alloc: Global, job: &Job) -> Result<String, Fail> {
    let mut told = String::from_str(
        alloc,
        if job.kind == Kind::Core {
            "core"
        } else {
            "xref"
        },
    )?;
    told_roots(&mut told, job)?;
    if let Some(cache) = &job.cache {
        told.push_str(" cache=")?;
        told.push_str(cache.as_str())?;
    }
    told.push_str(if job.report { " report <" } else { " <" })?;
    told.push_str(job.program.as_str())?;
    told.push_str(">")?;
    Ok(told)
}

fn told(alloc: Global, words: &Words) -> Result<String, Fail> {
    match words {
        Words::Expand(job) => told_job(alloc, job),
        Words::Make(n) => {
            let mut told = String::new(alloc);
            write!(told, "make {n}")?;
            Ok(told)
        }
        Words::Usage => Ok(String::from_str(alloc, "usage")?),
    }
}

fn check(rt: &impl Abort, alloc: Global, rows: &str) -> Result<(), Fail> {
    for row in rows.split("\n") {
        let (line, answer) = row.split_once(" => ").ok_or("no answer")?;
        let words = given(alloc, line)?;
        let read = read_words(alloc, words.as_slice())?;
        assert_eq!(rt; told(alloc, &read)?.as_str(), answer, "{line}");
    }
    Ok(())
}

#[test]
fn words_ask_for_what_the_table_says(rt: HostRuntime) -> Result<(), Fail> {
    check(&rt, rt.alloc(), ROWS)
}
