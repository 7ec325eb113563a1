ghost use Rattle.std.specs.Prelude.{◌≡◌};
ghost use Rattle.wp_classes.specs.Tables.{class_after_cross, class_after_way, copies, way_length};

use wp_graph::AisleWays;

/// What the part of a tour left of and with an aisle is, seen from the aisle's ends: the degree at the back end, the
/// degree at the front end and the number of parts that hang together. U is odd, E is even and touched, Z stands for 0,
/// untouched. These are the seven classes of Ratliff and Rosenthal, 1983.
#[derive(Clone, Copy, PartialEq, Eq)]
pub enum Class {
    UU1,
    E01,
    ZE1,
    EE1,
    EE2,
    Z00,
    Z01,
}

/// The six ways through an aisle, in the order of `AisleWays`.
#[derive(Clone, Copy, PartialEq, Eq)]
pub enum Way {
    Pass,
    Back,
    Front,
    Gap,
    Double,
    Skip,
}

/// The five crossings to the next aisle, by their copies of the back cross aisle and of the front cross aisle.
#[derive(Clone, Copy, PartialEq, Eq)]
pub enum Cross {
    C00,
    C11,
    C20,
    C02,
    C22,
}

/// The class after a way through an aisle, from the class before it. None where the way is not allowed.
pub fn after_way(class: Class, way: Way) -> Option<Class>
    ensures { result ≡ class_after_way class way }
{
    match (class, way) {
        (Class::Z01, Way::Skip) => Some(Class::Z01),
        (Class::Z01, _) => None,
        (Class::UU1, Way::Pass) => Some(Class::EE1),
        (_, Way::Pass) => Some(Class::UU1),
        (Class::UU1, _) => Some(Class::UU1),
        (_, Way::Double) => Some(Class::EE1),
        (_, Way::Skip) => Some(class),
        (Class::EE1, _) => Some(Class::EE1),
        (Class::E01 | Class::Z00, Way::Back) => Some(Class::E01),
        (Class::ZE1 | Class::Z00, Way::Front) => Some(Class::ZE1),
        _ => Some(Class::EE2),
    }
}

/// The class after a crossing, from the class after the way through the aisle before it. None where the crossing is not
/// allowed.
pub fn after_cross(class: Class, cross: Cross) -> Option<Class>
    ensures { result ≡ class_after_cross class cross }
{
    match (class, cross) {
        (Class::UU1, Cross::C11) => Some(Class::UU1),
        (Class::E01 | Class::ZE1 | Class::EE1 | Class::Z01, Cross::C00) => Some(Class::Z01),
        (Class::Z00, Cross::C00) => Some(Class::Z00),
        (Class::E01 | Class::EE1 | Class::Z00, Cross::C20) => Some(Class::E01),
        (Class::ZE1 | Class::EE1 | Class::Z00, Cross::C02) => Some(Class::ZE1),
        (Class::EE1, Cross::C22) => Some(Class::EE1),
        (Class::E01 | Class::ZE1 | Class::EE2 | Class::Z00, Cross::C22) => Some(Class::EE2),
        _ => None,
    }
}

/// The length of a way, None where it doesn't apply.
pub(crate) fn length_of_way(ways: &AisleWays, way: Way) -> Option<u64>
    ensures { result ≡ way_length ways.now way }
{
    match way {
        Way::Pass => Some(ways.pass),
        Way::Back => ways.back,
        Way::Front => ways.front,
        Way::Gap => ways.gap,
        Way::Double => Some(ways.double),
        Way::Skip => ways.skip,
    }
}

/// How many copies of a cross aisle a crossing has, at both ends together.
pub(crate) fn copies_of(cross: Cross) -> u64
    ensures { result ≡ copies cross }
{
    match cross {
        Cross::C00 => 0,
        Cross::C11 | Cross::C20 | Cross::C02 => 2,
        Cross::C22 => 4,
    }
}
