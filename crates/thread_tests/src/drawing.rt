use stamps::Stamps;
use std::test::Fail;

#[test]
fn two_seats_draw_each_number_once(rt: HostRuntime) -> Result<(), Fail> {
    let (stamps, mut first) = Stamps::new(rt.alloc(), 2)?;
    let Some(mut second) = stamps.split(&mut first) else {
        panic!(rt; "a seat is left")
    };
    assert!(rt; stamps.split(&mut first).is_none());
    assert!(rt; first.number() == 0 && second.number() == 1);
    let one = stamps.draw(&mut first);
    let two = stamps.draw(&mut second);
    let three = stamps.draw(&mut second);
    let four = stamps.draw(&mut first);
    assert!(rt; [one, two, three, four] == [0, 1, 2, 3]);
    stamps.join(&mut first, second);
    assert!(rt; first.number() == 0 && stamps.close(first) == 4);
    Ok(())
}
