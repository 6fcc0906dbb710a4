// Bytes of a form that there is, and long enough for its head.
ghost use Rattle.std.specs.Prelude.{◌≡◌};
ghost use Rattle.model.specs.Forms.{form_in};
ghost use Rattle.model.specs.Facts.{Formed};

#[derive(Clone, Copy)]
pub struct FormedBytes<'t> {
    pub bytes: &'t [u8],
    pub form: usize,
    pub ghost formed: { Formed bytes.now },
    pub ghost form_is: { form ≡ form_in bytes.now },
}
