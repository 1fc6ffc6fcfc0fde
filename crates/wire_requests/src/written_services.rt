//! The services of a request, written.

ghost use Rattle.std.specs.Prelude.{◌≡◌, IfSome, OnOk, option_map, true};
ghost use Rattle.std.specs.List.{AllByRecursion};
ghost use Rattle.serde_json.specs.Data.{array};
ghost use Rattle.commands.specs.Quantities.{is_quantity};
ghost use Rattle.json_fields.specs.Tokens.{Adds, tokens_of, member_tokens, perhaps_tokens};
ghost use Rattle.json_fields.specs.Tokens.{item_tokens};
ghost use Rattle.wire_requests.specs.Spelled.{requested_data, tag_of, part_data, part_items};
ghost use Rattle.wire_requests.specs.Spelled.{used_data, service_data, service_items};
ghost use Rattle.commands.specs.Names.{name_of};
ghost use Rattle.wire_requests.specs.Rules.{IsRequested, IsUsed, IsService};

use commands::names::TARIFF_CHANGE_USAGE;
use commands::{Avp, Quantity, Requested, Service, UsedParts, usage_number};
use json::Writer;
use json_fields::{put_number, put_perhaps, unit_name};
use std::alloc::AllocError;
use units::{UnitKind, UsedPart};

fn put_slice(out: &mut Writer) -> Result<(), AllocError>
    ensures { Adds result out.old out.new (tokens_of (requested_data Requested.Slice)) }
{
    out.begin_object()?;
    out.end_object()?;
    Ok(())
}

fn put_quantity(out: &mut Writer, quantity: Quantity) -> Result<(), AllocError>
    ensures adds { Adds result out.old out.new
        (tokens_of (requested_data (Requested.Units quantity))) }
    ensures rule { OnOk result (is_quantity quantity.kind quantity.units ≡ true) }
{
    out.begin_object()?;
    put_number(out, unit_name(quantity.kind()), quantity.units())?;
    out.end_object()?;
    Ok(())
}

fn put_requested(out: &mut Writer, requested: Requested) -> Result<(), AllocError>
    ensures adds { Adds result out.old out.new (tokens_of (requested_data requested)) }
    ensures rule { OnOk result (IsRequested requested) }
{
    match requested {
        Requested::Slice => put_slice(out),
        Requested::Units(quantity) => put_quantity(out, quantity),
    }
}

fn put_asked(out: &mut Writer, requested: Option<Requested>) -> Result<(), AllocError>
    ensures adds { Adds result out.old out.new
        (perhaps_tokens (name_of Avp.RequestedUnit) (option_map requested_data requested)) }
    ensures rule { OnOk result (IfSome requested IsRequested) }
{
    match requested {
        None => Ok(()),
        Some(requested) => {
            out.key(Avp::RequestedUnit.name())?;
            put_requested(out, requested)?;
            Ok(())
        }
    }
}

fn tag_of(part: &UsedPart) -> Option<u64>
    ensures { result ≡ tag_of part.now }
{
    part.change.map(|usage| usage_number(usage))
}

#[tactic(auto, using(json_fields::proofs::Tokens::perhaps_front), unfolding(crate::specs::Spelled::part_data))]
fn put_part(out: &mut Writer, kind: UnitKind, part: &UsedPart) -> Result<(), AllocError>
    ensures { Adds result out.old out.new (tokens_of (part_data kind part.now)) }
{
    out.begin_object()?;
    put_number(out, unit_name(kind), part.units.0)?;
    put_perhaps(out, TARIFF_CHANGE_USAGE, tag_of(part))?;
    out.end_object()?;
    Ok(())
}

fn put_parts(out: &mut Writer, kind: UnitKind, parts: &[UsedPart]) -> Result<(), AllocError>
    ensures { Adds result out.old out.new (item_tokens (part_items kind parts.now)) }
{
    for part in parts {
        put_part(out, kind, part)?;
    }
    Ok(())
}

fn put_report(out: &mut Writer, used: &UsedParts) -> Result<(), AllocError>
    ensures adds { Adds result out.old out.new
        (member_tokens (name_of Avp.UsedUnit) (used_data used.now)) }
    ensures rule { OnOk result (IsUsed used.now) }
{
    out.key(Avp::UsedUnit.name())?;
    out.begin_array()?;
    put_parts(out, used.kind(), used.parts())?;
    out.end_array()?;
    Ok(())
}

fn put_used(out: &mut Writer, used: &Option<UsedParts>) -> Result<(), AllocError>
    ensures adds { Adds result out.old out.new
        (perhaps_tokens (name_of Avp.UsedUnit) (option_map used_data used.now)) }
    ensures rule { OnOk result (IfSome used.now IsUsed) }
{
    match used {
        None => Ok(()),
        Some(used) => put_report(out, used),
    }
}

/// The service of this group.
#[tactic(auto, using(json_fields::proofs::Tokens::perhaps_front), unfolding(crate::specs::Spelled::service_data))]
pub(crate) fn put_service(
    out: &mut Writer,
    group: u32,
    requested: Option<Requested>,
    used: &Option<UsedParts>,
) -> Result<(), AllocError>
    ensures adds { Adds result out.old out.new (tokens_of (service_data
        (record { group = group; requested = requested; used = used.now }))) }
    ensures requested { OnOk result (IfSome requested IsRequested) }
    ensures used { OnOk result (IfSome used.now IsUsed) }
{
    out.begin_object()?;
    put_number(out, Avp::RatingGroup.name(), group as u64)?;
    put_asked(out, requested)?;
    put_used(out, used)?;
    out.end_object()?;
    Ok(())
}

fn put_one(out: &mut Writer, service: &Service) -> Result<(), AllocError>
    ensures adds { Adds result out.old out.new (tokens_of (service_data service.now)) }
    ensures rule { OnOk result (IsService service.now) }
{
    put_service(out, service.group, service.requested, &service.used)
}

fn put_items(out: &mut Writer, services: &[Service]) -> Result<(), AllocError>
    ensures adds { Adds result out.old out.new (item_tokens (service_items services.now)) }
    ensures rule { OnOk result (AllByRecursion IsService services.now) }
{
    for service in services {
        put_one(out, service)?;
    }
    Ok(())
}

/// The services, as an array.
pub(crate) fn put_services(out: &mut Writer, services: &[Service]) -> Result<(), AllocError>
    ensures adds { Adds result out.old out.new
        (member_tokens (name_of Avp.Services) (array (service_items services.now))) }
    ensures rule { OnOk result (AllByRecursion IsService services.now) }
{
    out.key(Avp::Services.name())?;
    out.begin_array()?;
    put_items(out, services)?;
    out.end_array()?;
    Ok(())
}
