//! Tests of a plant as its users have it: points, alarms, interlocks, what a master does about them, and the scenarios that name
//! them; Modbus frames, the devices that answer them, and the clients that act on what masters vouch for; a point's changes, and the
//! board that shows what more than f masters answer alike.
#![tactic(auto)]

#[cfg(test)]
mod alarms;
#[cfg(test)]
mod boards;
#[cfg(test)]
mod changes;
#[cfg(test)]
mod clients;
#[cfg(test)]
mod devices;
#[cfg(test)]
mod frames;
#[cfg(test)]
mod plants;
#[cfg(test)]
mod points;
#[cfg(test)]
mod proxies;
#[cfg(test)]
mod rules;
#[cfg(test)]
mod scenarios;
#[cfg(test)]
mod screens;
#[cfg(test)]
mod votes;
