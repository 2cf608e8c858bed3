// Which kind of line may follow which.
#![tactic(auto)]

ghost use Rattle.std.specs.Prelude.{◌≡◌};
ghost use Rattle.rules.specs.Order.{fits_declaration};
ghost use Rattle.rules.specs.Roles.{is_declaring, after_layout, leading, stage_after};
ghost use Rattle.rules.specs.declared.Role.TheVariants as role;
ghost use Rattle.line_order.specs.Following.{EndGiven, RoleGiven, RoleTest, OrderTold};

use rules::{Extra, Family, Kind, Role, Seal, State};

// The parts of a file, as far as its lines have come.
pub const AT_START: u8 = 0;

const AFTER_A: u8 = 1;

pub const AFTER_H: u8 = 2;

pub const IN_BODY: u8 = 6;

const AFTER_G: u8 = 7;

const AFTER_LAST_G: u8 = 8;

// The part of a file behind the line that tells a family's layout.
fn after_layout(family: Family) -> u8
    ensures { result ≡ after_layout family }
{
    match family {
        Family::B => 3,
        Family::Extra(e) => match e {
            Extra::K => 4,
            Extra::N => 5,
        },
    }
}

// The part of a file that its lines must have reached at its end, by the check that it is put through.
pub fn ends_after(seal: Seal) -> u8
    ensures { EndGiven seal result }
{
    match seal {
        Seal::Usual => AFTER_H,
        Seal::Strict => AFTER_G,
    }
}

// What a kind of line does in a file.
pub fn role_of(k: Kind) -> Role
    ensures { RoleGiven k result }
{
    match k {
        Kind::A => Role::Opens,
        Kind::B => Role::Columned(Family::B),
        Kind::C => Role::Declares,
        Kind::D => Role::Differential,
        Kind::E => Role::Event,
        Kind::F => Role::Satellites,
        Kind::G => Role::Seals,
        Kind::H => Role::Heads,
        Kind::I => Role::Tells(Family::B),
        Kind::J => Role::Tells(Family::Extra(Extra::K)),
        Kind::K => Role::Columned(Family::Extra(Extra::K)),
        Kind::L => Role::Remark,
        Kind::M => Role::Tells(Family::Extra(Extra::N)),
        Kind::N => Role::Columned(Family::Extra(Extra::N)),
        Kind::Other => Role::Other,
        Kind::NoKind => Role::NoRole,
    }
}

fn leads_to(low: u8, high: u8, next: u8, stage: u8) -> Option<u8>
    ensures { result ≡ leading low high next stage }
{
    if low <= stage && stage <= high {
        Some(next)
    } else {
        None
    }
}

fn layout_after(family: Family, stage: u8) -> Option<u8>
    ensures { result ≡ stage_after (role.Tells family) stage }
{
    let told = after_layout(family);
    leads_to(AFTER_H, told - 1, told, stage)
}

#[tactic(auto, unfolding(rules::specs::Roles::stage_after))]
fn remark_after(stage: u8) -> Option<u8>
    ensures { result ≡ stage_after role.Remark stage }
{
    if stage <= IN_BODY {
        return leads_to(AFTER_H, IN_BODY, IN_BODY, stage);
    }
    leads_to(AFTER_G, AFTER_LAST_G, AFTER_LAST_G, stage)
}

#[tactic(auto, using(crate::proofs::Others::body_role), unfolding(rules::specs::Roles::stage_after))]
fn stage_after(r: Role, stage: u8) -> Option<u8>
    ensures { result ≡ stage_after r stage }
{
    match r {
        Role::Opens => leads_to(AT_START, AT_START, AFTER_A, stage),
        Role::Heads => leads_to(AFTER_A, AFTER_H, AFTER_H, stage),
        Role::Tells(family) => layout_after(family, stage),
        Role::Seals => leads_to(AFTER_H, AFTER_G, AFTER_G, stage),
        Role::Remark => remark_after(stage),
        Role::NoRole => None,
        _ => leads_to(AFTER_H, IN_BODY, IN_BODY, stage),
    }
}

#[tactic(auto, using(crate::proofs::Others::other_declaring))]
fn is_declaring(r: Role) -> bool
    ensures { result ≡ is_declaring r }
{
    matches!(r, Role::Declares)
}

#[tactic(auto, using(crate::proofs::Others::some_role))]
pub fn is_role(r: Role) -> bool
    ensures { RoleTest r result }
{
    !matches!(r, Role::NoRole)
}

// Whether a line may come here, as far as the declaration goes: `c` says whether it is a C line.
#[tactic(auto, unfolding(rules::specs::Order::fits_declaration))]
fn fits_declaration(c: bool, st: State) -> bool
    ensures { result ≡ fits_declaration c st }
{
    if 1 <= st.points {
        return c;
    }
    !c || (!st.declared && st.flight.counts.b == 0)
}

// The part of the file that a line of this role leads to from here, if it may come.
#[tactic(auto, unfolding(rules::specs::Order::order_of))]
pub fn order_of(r: Role, st: State) -> Option<u8>
    ensures { OrderTold r st result }
{
    if !fits_declaration(is_declaring(r), st) {
        return None;
    }
    stage_after(r, st.stage)
}
