use crate::{LiftsEarly, Nowhere};
use route::{Acyclic, Route, Rule, Simple, Trail, length_limit};

#[test]
fn a_loop_at_the_start(rt: HostRuntime) {
    let mut route = Route::new(0);
    assert!(rt; Trail.may_add(&route, 7, 0));
    assert!(rt; !Acyclic.may_add(&route, 7, 0));
    assert!(rt; Simple.may_add(&route, 7, 0));
    assert!(rt; route.push(7, 0, 0, 1));
    assert!(rt; !Trail.may_add(&route, 7, 0));
    assert!(rt; Trail.may_add(&route, 8, 1));
    assert!(rt; Acyclic.may_add(&route, 8, 1));
    assert!(rt; !Simple.may_add(&route, 8, 1), "it is back at its start");
}

#[test]
fn a_return_to_the_start(rt: HostRuntime) {
    let mut route = Route::new(4);
    assert!(rt; route.push(1, 2, 0, 1));
    assert!(rt; Trail.may_add(&route, 9, 4));
    assert!(rt; !Acyclic.may_add(&route, 9, 4));
    assert!(rt; Simple.may_add(&route, 9, 4));
    assert!(rt; route.push(9, 4, 3, 2));
    assert_eq!(rt; route.here(), 4);
    assert_eq!(rt; route.mask(0), 2);
    assert!(rt; Trail.may_add(&route, 2, 3));
    assert!(rt; !Simple.may_add(&route, 2, 3));
    route.pop();
    assert_eq!(rt; route.here(), 2);
    assert!(rt; Simple.may_add(&route, 2, 3));
    assert!(rt; Acyclic.may_add(&route, 2, 3));
}

#[test]
fn two_passages_between_the_same_zones(rt: HostRuntime) {
    let mut route = Route::new(0);
    assert!(rt; route.push(1, 1, 0, 1));
    assert!(rt; route.push(2, 0, 0, 1));
    assert!(rt; Trail.may_add(&route, 3, 1));
    assert!(rt; !Trail.may_add(&route, 1, 1));
    assert!(rt; !Acyclic.may_add(&route, 3, 1));
    assert!(rt; !Simple.may_add(&route, 3, 1));
}

#[test]
fn an_empty_route(rt: HostRuntime) {
    let mut route = Route::new(9);
    assert_eq!(rt; route.here(), 9);
    assert_eq!(rt; route.mask(5), 5);
    route.pop();
    assert_eq!(rt; route.length(), 0);
    assert!(rt; !route.uses(0));
    assert!(rt; !route.reaches(9));
    assert!(rt; !route.reaches(0));
}

#[test]
fn a_trail_of_every_passage(rt: HostRuntime) {
    let mut route = Route::new(0);
    for passage in 0..=255 {
        assert!(rt; Trail.may_add(&route, passage, 1));
        assert!(rt; route.push(passage, 1, 0, 1));
    }
    assert_eq!(rt; route.length(), 256);
    assert!(rt; !route.push(0, 0, 0, 0));
    assert_eq!(rt; route.length(), 256);
    assert!(rt; !Trail.may_add(&route, 0, 1));
    assert!(rt; !Trail.may_add(&route, 255, 1));
}

#[test]
fn every_zone_once(rt: HostRuntime) {
    let mut route = Route::new(0);
    for zone in 1..64 {
        assert!(rt; Acyclic.may_add(&route, zone, zone));
        assert!(rt; Simple.may_add(&route, zone, zone));
        assert!(rt; route.push(zone, zone, 0, 1));
    }
    assert_eq!(rt; route.length(), Acyclic.greatest());
    for zone in 0..64 {
        assert!(rt; !Acyclic.may_add(&route, 200, zone));
    }
    assert!(rt; Simple.may_add(&route, 200, 0));
    assert!(rt; route.push(200, 0, 0, 1));
    assert_eq!(rt; route.length(), Simple.greatest());
    for zone in 0..64 {
        assert!(rt; !Simple.may_add(&route, 201, zone));
    }
    assert!(rt; Trail.may_add(&route, 201, 5));
}

#[test]
fn greatest_lengths(rt: HostRuntime) {
    assert_eq!(rt; Trail.greatest(), 256);
    assert_eq!(rt; length_limit(&Trail), 256);
    assert_eq!(rt; length_limit(&Acyclic), 63);
    assert_eq!(rt; length_limit(&Simple), 64);
    assert_eq!(rt; length_limit(&Nowhere), 0);
    assert_eq!(rt; LiftsEarly.greatest(), 1000);
    assert_eq!(rt; length_limit(&LiftsEarly), 256);
}

#[test]
fn rules_of_ones_own(rt: HostRuntime) {
    let mut route = Route::new(0);
    assert!(rt; !Nowhere.may_add(&route, 0, 1));
    assert!(rt; LiftsEarly.may_add(&route, 0, 5));
    for passage in 0..3 {
        assert!(rt; LiftsEarly.may_add(&route, passage, 6));
        assert!(rt; route.push(passage, 6, 0, 1));
    }
    assert!(rt; !LiftsEarly.may_add(&route, 3, 5));
    assert!(rt; !LiftsEarly.may_add(&route, 3, 6));
    assert!(rt; !LiftsEarly.may_add(&route, 2, 4));
    assert!(rt; LiftsEarly.may_add(&route, 3, 4));
}
