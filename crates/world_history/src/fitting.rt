//! Which events an actor of a scenario can have.
ghost use Rattle.std.specs.Prelude.{◌≡◌, ◌+◌, ◌-◌, ◌≤◌, ◌<◌, length, nat_lt, if◌then◌else◌};
ghost use Rattle.field_device.specs.Places.{zeros, size_of};
ghost use Rattle.scenario_file.specs.Reading.{contents};
ghost use Rattle.world_entries.specs.Entries.{event_of};
ghost use Rattle.world_rules.specs.Clients.{device_of};
ghost use Rattle.world_rules.specs.Scenarios.{fits_all, fits_correct, fits_intruded, fits_proxy, fits_screen, fits_in, proxies_in};

use point_table::{Area, DeviceSizes};
use scenario_file::Scenario;
use world_entries::Event;

/// Whether the event is one of the actor's role in the scenario.
pub(crate) fn fits_actor(scenario: &Scenario, actor: u32, event: &Event) -> bool
    ensures { result ≡ fits_in (contents scenario.now) actor (event_of event.now) }
{
    if actor >= scenario.sizes.n {
        return fits_client(scenario, actor - scenario.sizes.n, event);
    }
    if scenario.intruded.has(actor) {
        return fits_intruded(event);
    }
    fits_correct(event)
}

/// Whether it is one of a client's role. The proxies' numbers come before the screens'.
fn fits_client(scenario: &Scenario, client: u32, event: &Event) -> bool
    ensures { result ≡ (if nat_lt client (proxies_in (contents scenario.now)) then fits_proxy (zeros (device_of scenario.now.plant client)) (event_of event.now) else fits_screen (event_of event.now)) }
{
    match scenario.plant.devices.get(client as usize) {
        Some(device) => fits_proxy(device, event),
        None => fits_screen(event),
    }
}

fn fits_all(event: &Event) -> bool
    ensures { result ≡ fits_all (event_of event.now) }
{
    matches!(event, Event::Took { .. } | Event::Tick | Event::Skip)
}

fn fits_correct(event: &Event) -> bool
    ensures { result ≡ fits_correct (event_of event.now) }
{
    match event {
        Event::Restart => true,
        _ => fits_all(event),
    }
}

fn fits_intruded(event: &Event) -> bool
    ensures { result ≡ fits_intruded (event_of event.now) }
{
    match event {
        Event::Cry { .. } => true,
        _ => fits_all(event),
    }
}

fn fits_screen(event: &Event) -> bool
    ensures { result ≡ fits_screen (event_of event.now) }
{
    match event {
        Event::Command { .. } => true,
        _ => fits_correct(event),
    }
}

fn fits_proxy(device: &DeviceSizes, event: &Event) -> bool
    ensures { result ≡ fits_proxy (zeros device.now) (event_of event.now) }
{
    match event {
        Event::Poll => true,
        Event::Field { area, place, .. } => *place < size_of_area(device, *area),
        _ => fits_correct(event),
    }
}

/// How many places the device has in the area.
fn size_of_area(device: &DeviceSizes, area: Area) -> u16
    ensures { result ≡ size_of (zeros device.now) area }
{
    match area {
        Area::Coil => device.coils,
        Area::Discrete => device.discrete,
        Area::Holding => device.holding,
        Area::Input => device.input,
    }
}
