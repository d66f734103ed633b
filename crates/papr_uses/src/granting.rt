//! A caller of `frame_grants`: a byte of a range that was granted has its machine address.
ghost use Rattle.std.specs.Prelude.{◌≡◌, ◌<◌, ◌+◌, None, Some, IfOk, MatchResult};
ghost use Rattle.frame_grants.specs.Grants.{add_refusal};

use frame_grants::{Grant, GrantError, Grants, Kind};

/// Grants a range, and asks for the machine address of one of its bytes: it lies as far into the
/// machine range.
pub fn grant_and_ask(
    grants: &mut Grants,
    grant: Grant,
    offset: u64,
) -> Result<Option<(u64, Kind)>, GrantError>
    requires { offset < grant.length }
    ensures at { IfOk result (λ at. at ≡ Some (grant.machine + offset, grant.kind)) }
    ensures told { MatchResult
        result
        (λ _. add_refusal grants.old grant ≡ None)
        (λ e. add_refusal grants.old grant ≡ Some e) }
{
    grants.add(grant)?;
    Ok(grants.machine_of(grant.logical + offset, 1))
}
