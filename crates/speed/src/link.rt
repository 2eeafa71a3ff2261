//! How fast colours go by the link of two profiles, which is built first: the same lines as straight through both, and
//! the nanoseconds that the link took to build.
use crate::colour::{Bytes, added, code_of};
use crate::no_memory;
use icc_model::{Intent, Profile};
use link_build::{Converter, Link, LinkKey, build};
use press_fault::Mem;
use std::io;
use std::io::ErrorKind;
use std::sync::Arc;
use std::time::Instant;

/// The sum of the colours of all codes.
fn sum_of(link: &Link, codes: &[Bytes]) -> u64 {
    let channels = link.key().source().channels();
    let mut sum = 0;
    for bytes in codes {
        sum = added(sum, link.convert(code_of(channels, *bytes)));
    }
    sum
}

/// The key of two profiles, where the target can receive.
fn key_of(source: &Arc<Profile>, target: &Arc<Profile>) -> Mem<Option<LinkKey>> {
    let source = Arc::try_clone(source)?;
    let target = Arc::try_clone(target)?;
    if !target.can_receive(Intent::Relative) {
        return Ok(None);
    }
    Ok(Some(LinkKey::new(source, target, Intent::Relative)))
}

/// The link of a key, and how long it took to build.
fn built(rt: &HostRuntime, name: &str, key: &LinkKey) -> io::Result<Link> {
    let start = Instant::now(rt)?;
    let Ok(link) = build(rt.alloc(), key) else {
        return Err(no_memory());
    };
    let time = start.elapsed(rt)?;
    eprintln!(rt; "colour, {name} by a link, build: {} ns", time.as_nanos())?;
    Ok(link)
}

pub(crate) fn case(
    rt: &HostRuntime,
    name: &str,
    source: &Arc<Profile>,
    target: &Arc<Profile>,
    codes: &[Bytes],
) -> io::Result<()> {
    let Ok(key) = key_of(source, target) else {
        return Err(no_memory());
    };
    let Some(key) = key else {
        return Err(io::Error::from(ErrorKind::InvalidInput));
    };
    let link = built(rt, name, &key)?;
    let start = Instant::now(rt)?;
    let sum = sum_of(&link, codes);
    let time = start.elapsed(rt)?;
    println!(rt;
        "colour, {name} by a link: {} colours, sum {sum}",
        codes.len()
    )?;
    eprintln!(rt; "colour, {name} by a link: {} ns", time.as_nanos())?;
    Ok(())
}
