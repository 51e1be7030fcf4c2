// The functions of `api_c::routine` under their C names.
ghost use Rattle.desk.specs.Calls.{Called, ByPolicies, ByOutline, ByStep};

// As `api_c::routine::wiforekun_desk_policies`.
#[unsafe(no_mangle)]
pub extern "C" fn wiforekun_desk_policies(state: &mut [u8], text: &[u8]) -> u32
    ensures { Called (ByPolicies text.now) state.old result state.new }
{
    api_c::routine::wiforekun_desk_policies(state, text)
}

// As `api_c::routine::wiforekun_desk_outline`.
#[unsafe(no_mangle)]
pub extern "C" fn wiforekun_desk_outline(state: &mut [u8], text: &[u8]) -> u32
    ensures { Called (ByOutline text.now) state.old result state.new }
{
    api_c::routine::wiforekun_desk_outline(state, text)
}

// As `api_c::routine::wiforekun_desk_step`.
#[unsafe(no_mangle)]
pub extern "C" fn wiforekun_desk_step(state: &mut [u8], kind: u32, a: u32, b: u32) -> u32
    ensures { Called (ByStep (record { kind = kind; a = a; b = b })) state.old result state.new }
{
    api_c::routine::wiforekun_desk_step(state, kind, a, b)
}
