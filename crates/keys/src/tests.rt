// A name is printed as it was spelt: that printing succeeds where the writer does no contract says.
use crate::Name;
use std::alloc::Global;
use std::test::Fail;

// The name of this text, printed.
fn printed(heap: Global, text: &str) -> Result<String, Fail> {
    let Ok(name) = Name::new(text.as_bytes()) else {
        return Ok(String::new(heap));
    };
    Ok(format!(in heap; "{name}")?)
}

// letters and digits at both ends of their ranges, small and capital
#[test]
fn up_to_four(rt: HostRuntime) -> Result<(), Fail> {
    assert_eq!(rt; printed(rt.alloc(), "Z")?.as_str(), "Z");
    assert_eq!(rt; printed(rt.alloc(), "a0")?.as_str(), "a0");
    assert_eq!(rt; printed(rt.alloc(), "0zA")?.as_str(), "0zA");
    assert_eq!(rt; printed(rt.alloc(), "9aZz")?.as_str(), "9aZz");
    Ok(())
}

#[test]
fn up_to_eight(rt: HostRuntime) -> Result<(), Fail> {
    assert_eq!(rt; printed(rt.alloc(), "Bond7")?.as_str(), "Bond7");
    assert_eq!(rt; printed(rt.alloc(), "000000")?.as_str(), "000000");
    assert_eq!(rt; printed(rt.alloc(), "AZaz099")?.as_str(), "AZaz099");
    assert_eq!(rt; printed(rt.alloc(), "zZ9aA0Mm")?.as_str(), "zZ9aA0Mm");
    Ok(())
}
