use outside::{
    Files, LoadAnswer, MemoryFiles, MemorySink, PutAnswer, Sink, SteadyFiles, SteadySink,
};
use std::test::Fail;

#[test]
fn files_in_memory_fail_as_listed(rt: HostRuntime) -> Result<(), Fail> {
    let alloc = rt.alloc();
    let listed = vec![in alloc; (String::from_str(alloc, "a")?, vec![in alloc; 7u8, 8]?)]?;
    let mut files = MemoryFiles::make(alloc, listed, vec![in alloc; 2]?);
    assert_eq!(rt; files.load("a", 2)?.as_slice(), [7, 8].as_slice());
    assert_eq!(rt; files.load("a", 2).err(), Some(LoadAnswer::Failed));
    assert_eq!(rt; files.load("a", 1).err(), Some(LoadAnswer::TooLong));
    assert_eq!(rt; files.load("b", 9).err(), Some(LoadAnswer::Failed));
    let mut steady = SteadyFiles::make(alloc, Vec::new(alloc));
    assert_eq!(rt; steady.load("b", 0)?.len(), 0);
    Ok(())
}

#[test]
fn sinks_in_memory_fail_as_listed(rt: HostRuntime) -> Result<(), Fail> {
    let mut sink = MemorySink::make(rt.alloc(), vec![in rt.alloc(); 2]?);
    sink.put(&[1, 2])?;
    assert_eq!(rt; sink.put(&[3]), Err(PutAnswer::Failed));
    sink.put(&[4])?;
    assert_eq!(rt; sink.bytes(), [1, 2, 4].as_slice());
    let mut steady = SteadySink::make(rt.alloc());
    steady.put(&[5])?;
    assert_eq!(rt; steady.bytes(), [5].as_slice());
    Ok(())
}
