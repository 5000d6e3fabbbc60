//! Public-key lines of all seven types, as ssh-keygen of OpenSSH 9.2 wrote them or was given them.

use lines::{KeyType, are_parts, read_subject_line};
use std::alloc::Global;
use std::rt::HostRuntime;
use text::{NoMemory, Text, Texts};

fn is_read(alloc: Global, line: &[u8]) -> bool {
    let Ok(found) = read_subject_line(alloc, line) else {
        return false;
    };
    found.is_some()
}

/// Whether a modulus of so many bytes, the first of them this, is one of a key. The exponent is 65537.
fn is_modulus(alloc: Global, first: u8, size: usize) -> Result<bool, NoMemory> {
    let mut modulus = Vec::new(alloc);
    modulus.push(first)?;
    for _ in 1..size {
        modulus.push(0xff)?;
    }
    let mut parts = Texts::new(alloc);
    parts.push(Text::from_slice(alloc, b"\x01\x00\x01")?)?;
    parts.push(Text::from_slice(alloc, modulus.as_slice())?)?;
    Ok(are_parts(KeyType::Rsa, parts.as_slice()))
}

/// The same of an exponent, beside a modulus of 2048 bits.
fn is_exponent(alloc: Global, exponent: &[u8]) -> Result<bool, NoMemory> {
    let mut modulus = Vec::new(alloc);
    modulus.push(0)?;
    for _ in 1..257 {
        modulus.push(0xff)?;
    }
    let mut parts = Texts::new(alloc);
    parts.push(Text::from_slice(alloc, exponent)?)?;
    parts.push(Text::from_slice(alloc, modulus.as_slice())?)?;
    Ok(are_parts(KeyType::Rsa, parts.as_slice()))
}

/// Whether an application of so many bytes is one of a security key.
fn is_application(alloc: Global, beginning: &[u8], size: usize) -> Result<bool, NoMemory> {
    let mut application = Vec::new(alloc);
    application.extend_from_slice(beginning)?;
    for _ in beginning.len()..size {
        application.push(b'~')?;
    }
    let mut parts = Texts::new(alloc);
    parts.push(Text::from_slice(alloc, &[0x22; 32])?)?;
    parts.push(Text::from_slice(alloc, application.as_slice())?)?;
    Ok(are_parts(KeyType::SkEd25519, parts.as_slice()))
}

#[test]
fn a_modulus_has_2048_to_16384_bits(rt: HostRuntime) {
    let alloc = rt.alloc();
    assert!(rt; is_modulus(alloc, 0, 257) == Ok(true));
    assert!(rt; is_modulus(alloc, 0, 256) == Ok(false));
    assert!(rt; is_modulus(alloc, 0x7f, 256) == Ok(false));
    assert!(rt; is_modulus(alloc, 1, 257) == Ok(true));
    assert!(rt; is_modulus(alloc, 0x7f, 2048) == Ok(true));
    assert!(rt; is_modulus(alloc, 0, 2049) == Ok(true));
    assert!(rt; is_modulus(alloc, 1, 2049) == Ok(false));
    assert!(rt; is_modulus(alloc, 0, 2050) == Ok(false));
    assert!(rt; is_modulus(alloc, 0x80, 257) == Ok(false));
}

#[test]
fn an_exponent_is_3_or_more_in_8_bytes(rt: HostRuntime) {
    let alloc = rt.alloc();
    assert!(rt; is_exponent(alloc, b"\x03") == Ok(true));
    assert!(rt; is_exponent(alloc, b"\x02") == Ok(false));
    assert!(rt; is_exponent(alloc, b"") == Ok(false));
    assert!(rt; is_exponent(alloc, b"\x7f\xff\xff\xff\xff\xff\xff\xff") == Ok(true));
    assert!(rt; is_exponent(alloc, b"\x00\x80\xff\xff\xff\xff\xff\xff") == Ok(true));
    assert!(rt; is_exponent(alloc, b"\x01\xff\xff\xff\xff\xff\xff\xff\xff") == Ok(false));
    assert!(rt; is_exponent(alloc, b"\x00\x03") == Ok(false));
}

#[test]
fn an_application_has_up_to_251_bytes_after_its_beginning(rt: HostRuntime) {
    let alloc = rt.alloc();
    assert!(rt; is_application(alloc, b"ssh:", 4) == Ok(true));
    assert!(rt; is_application(alloc, b"ssh:", 255) == Ok(true));
    assert!(rt; is_application(alloc, b"ssh:", 256) == Ok(false));
    assert!(rt; is_application(alloc, b"ssh", 3) == Ok(false));
    assert!(rt; is_application(alloc, b"ssh: ", 6) == Ok(true));
    assert!(rt; is_application(alloc, b"ssh:\x1f", 6) == Ok(false));
    assert!(rt; is_application(alloc, b"ssh:\x7f", 6) == Ok(false));
}

#[test]
fn a_line_of_ed25519_is_read(rt: HostRuntime) {
    let line =
        b"ssh-ed25519 AAAAC3NzaC1lZDI1NTE5AAAAIAl6NEM+jOkYWFjPbm/j85LeLAeBK/EDkd9WgxPynZCL ed25519-256".as_slice();
    assert!(rt; is_read(rt.alloc(), line));
}

#[test]
fn a_line_of_ecdsa_p256_is_read(rt: HostRuntime) {
    let line =
        b"ecdsa-sha2-nistp256 AAAAE2VjZHNhLXNoYTItbmlzdHAyNTYAAAAIbmlzdHAyNTYAAABBBG+iGUuJT5bHO92U5yRyqPDpHHIs9zzc3\
          KVgHvlr0jTX1drSa3hTzxBBNZbm+DAI2fAlx1Tvoo95hCkwJXnaOJg= ecdsa-256"
            .as_slice();
    assert!(rt; is_read(rt.alloc(), line));
}

#[test]
fn a_line_of_ecdsa_p384_is_read(rt: HostRuntime) {
    let line =
        b"ecdsa-sha2-nistp384 AAAAE2VjZHNhLXNoYTItbmlzdHAzODQAAAAIbmlzdHAzODQAAABhBCdI6qAyfvZo83zOtW4SnBV2tO2ixKRyd\
          x9/gnpD90EzFz7kX8ufwaxyZud3NEZVYi6cojRCZpun/hodk2ws3gVvD6pHFRPAfKF9H6Gsk2Q4heBYD9qlH9pJCOTWyxm5Qg== ecdsa\
          -384"
            .as_slice();
    assert!(rt; is_read(rt.alloc(), line));
}

#[test]
fn a_line_of_ecdsa_p521_is_read(rt: HostRuntime) {
    let line =
        b"ecdsa-sha2-nistp521 AAAAE2VjZHNhLXNoYTItbmlzdHA1MjEAAAAIbmlzdHA1MjEAAACFBAGZGfohzhMgKLSRZOzaxVmoLhZoI4ywx\
          7PLwtae+Fkq24Jtbm9wEOHRvjmB/75MH96t3e+jjw5V6pvMxJ0K/V3YSAG61KjiZl9mkWRbL3IAHgjyo6nudU9i5P96y4cfFpJT5/m/SJ\
          syYmxjARt7JjdAXcEZSXEFGmDcv4YtC2epBa0+VA== ecdsa-521"
            .as_slice();
    assert!(rt; is_read(rt.alloc(), line));
}

#[test]
fn a_line_of_rsa_2048_is_read(rt: HostRuntime) {
    let line =
        b"ssh-rsa AAAAB3NzaC1yc2EAAAADAQABAAABAQC3UV+kgVuAjn4XAUGEdAMqnRr3QK7qgoxDiWJnFXxkWq43oTpgwRYYA7G475DSu5N+V\
          oEb4YvJvlv5gYYj6NAd5TF6zyg5Mz44UcnT3/RxQUMzb5EAB4sgB2IhJdtZdIUBSZjheuJq9RqPSnuU6KzHra7/7QD7fOxe9gB0ROKF5I\
          gqnogMcRJlwniRMUHamDQYVNTKqooEfZgCNjENASyqUw0qpq00A8VBTxoyJzvtn8mJztLx6uHQYYu7xshqrEYPY07po3rAMTqM1AUJNo8\
          ghg9Nxs8qy9OAgCN/L3JdCELAy0j7bsw5mLF5wLcFZIF/viRXPA65s22TLJEPRLy5 rsa-2048"
            .as_slice();
    assert!(rt; is_read(rt.alloc(), line));
}

#[test]
fn a_line_of_rsa_4096_is_read(rt: HostRuntime) {
    let line =
        b"ssh-rsa AAAAB3NzaC1yc2EAAAADAQABAAACAQDvaslrjxg5M5DNB/iBNM4eZwTRk1c9TQGb6ih6h7M4JNZoBXYhdVOBxvsDLxaOXiEKK\
          M0x8fL/HDQJIFqQFa/N0n7kr7Mw7GBoz3FKxCuavMrr0N1FjVf/qApRIAaLgiA6akEsvGvgBJ6mjQSHyIpIOhXAe3N/v30otQ/KD0sPMs\
          xT1P6MofUS2gkLdnJVMXo0yyFpjXsZYY4k1oQxi8MTgQGkRHnTM1fwXBWT2CWuWcMIz9+1RrbL+m00QcQq994PwutrosIl61hpgQHGnOg\
          xpuP9G1KwSkR+zY6qHIVrEvn3cwNkoeg1gvf6U9EsO4f/iegaB1JX38du6v62QpMMNSfCOTyARg+i/NjjdVSftdEiK7iEL6wJaL/kBFb4\
          4bKvUYJmVv2nIRyGgzmo7bZg+I0rbqdWV1UMUhyKNC10Rxvkb78q6wOnCSZ34tYIxKGGPEZ8ds4/GXcNYlZ1YCUB2KbLIcoi+bfXpvZTT\
          TWnYBJqKrWI3gvdxDsxwTJ0Csm0H0nfAN56oXQ1ByLZ+HhW9LmL29PX2f3cVYEk6MONkRoMScR5pvhomvkIorFLsluZktEAg8hrVGVKRq\
          38v8S4noVUIjl7pterVQTCGvbxoBzLGoWg1VYM/bgKhSwdbfXhCgy3UpNbtKeFpmkVsh/GA9ngkwhVslwhyj4eb6Tj9Q== rsa-4096"
            .as_slice();
    assert!(rt; is_read(rt.alloc(), line));
}

#[test]
fn a_line_of_sk_ed25519_is_read(rt: HostRuntime) {
    let line =
        b"sk-ssh-ed25519@openssh.com AAAAGnNrLXNzaC1lZDI1NTE5QG9wZW5zc2guY29tAAAAIAl6NEM+jOkYWFjPbm/j85LeLAeBK/EDkd\
          9WgxPynZCLAAAABHNzaDo= x"
            .as_slice();
    assert!(rt; is_read(rt.alloc(), line));
}

#[test]
fn a_line_of_sk_ecdsa_is_read(rt: HostRuntime) {
    let line =
        b"sk-ecdsa-sha2-nistp256@openssh.com AAAAInNrLWVjZHNhLXNoYTItbmlzdHAyNTZAb3BlbnNzaC5jb20AAAAIbmlzdHAyNTYAAA\
          BBBG+iGUuJT5bHO92U5yRyqPDpHHIs9zzc3KVgHvlr0jTX1drSa3hTzxBBNZbm+DAI2fAlx1Tvoo95hCkwJXnaOJgAAAAEc3NoOg== x"
            .as_slice();
    assert!(rt; is_read(rt.alloc(), line));
}

#[test]
fn a_modulus_of_2047_bits_is_refused(rt: HostRuntime) {
    let line =
        b"ssh-rsa AAAAB3NzaC1yc2EAAAADAQABAAABAH///////////////////////////////////////////////////////////////////\
          /////////////////////////////////////////////////////////////////////////////////////////////////////////\
          /////////////////////////////////////////////////////////////////////////////////////////////////////////\
          ///////////////////////////////////////////////////////////////8= x"
            .as_slice();
    assert!(rt; !is_read(rt.alloc(), line));
}

#[test]
fn a_modulus_with_a_needless_zero_is_refused(rt: HostRuntime) {
    let line =
        b"ssh-rsa AAAAB3NzaC1yc2EAAAADAQABAAABAgAAt1FfpIFbgI5+FwFBhHQDKp0a90Cu6oKMQ4liZxV8ZFquN6E6YMEWGAOxuO+Q0ruTf\
          laBG+GLyb5b+YGGI+jQHeUxes8oOTM+OFHJ09/0cUFDM2+RAAeLIAdiISXbWXSFAUmY4XriavUaj0p7lOisx62u/+0A+3zsXvYAdETihe\
          SIKp6IDHESZcJ4kTFB2pg0GFTUyqqKBH2YAjYxDQEsqlMNKqatNAPFQU8aMic77Z/Jic7S8erh0GGLu8bIaqxGD2NO6aN6wDE6jNQFCTa\
          PIIYPTcbPKsvTgIAjfy9yXQhCwMtI+27MOZixecC3BWSBf74kVzwOubNtkyyRD0S8uQ== x"
            .as_slice();
    assert!(rt; !is_read(rt.alloc(), line));
}

#[test]
fn an_exponent_with_a_needless_zero_is_refused(rt: HostRuntime) {
    let line =
        b"ssh-rsa AAAAB3NzaC1yc2EAAAAEAAEAAQAAAQEAt1FfpIFbgI5+FwFBhHQDKp0a90Cu6oKMQ4liZxV8ZFquN6E6YMEWGAOxuO+Q0ruTf\
          laBG+GLyb5b+YGGI+jQHeUxes8oOTM+OFHJ09/0cUFDM2+RAAeLIAdiISXbWXSFAUmY4XriavUaj0p7lOisx62u/+0A+3zsXvYAdETihe\
          SIKp6IDHESZcJ4kTFB2pg0GFTUyqqKBH2YAjYxDQEsqlMNKqatNAPFQU8aMic77Z/Jic7S8erh0GGLu8bIaqxGD2NO6aN6wDE6jNQFCTa\
          PIIYPTcbPKsvTgIAjfy9yXQhCwMtI+27MOZixecC3BWSBf74kVzwOubNtkyyRD0S8uQ== x"
            .as_slice();
    assert!(rt; !is_read(rt.alloc(), line));
}

#[test]
fn an_exponent_of_1_is_refused(rt: HostRuntime) {
    let line =
        b"ssh-rsa AAAAB3NzaC1yc2EAAAABAQAAAQEAt1FfpIFbgI5+FwFBhHQDKp0a90Cu6oKMQ4liZxV8ZFquN6E6YMEWGAOxuO+Q0ruTflaBG\
          +GLyb5b+YGGI+jQHeUxes8oOTM+OFHJ09/0cUFDM2+RAAeLIAdiISXbWXSFAUmY4XriavUaj0p7lOisx62u/+0A+3zsXvYAdETiheSIKp\
          6IDHESZcJ4kTFB2pg0GFTUyqqKBH2YAjYxDQEsqlMNKqatNAPFQU8aMic77Z/Jic7S8erh0GGLu8bIaqxGD2NO6aN6wDE6jNQFCTaPIIY\
          PTcbPKsvTgIAjfy9yXQhCwMtI+27MOZixecC3BWSBf74kVzwOubNtkyyRD0S8uQ== x"
            .as_slice();
    assert!(rt; !is_read(rt.alloc(), line));
}

#[test]
fn an_exponent_of_0_is_refused(rt: HostRuntime) {
    let line =
        b"ssh-rsa AAAAB3NzaC1yc2EAAAAAAAABAQC3UV+kgVuAjn4XAUGEdAMqnRr3QK7qgoxDiWJnFXxkWq43oTpgwRYYA7G475DSu5N+VoEb4\
          YvJvlv5gYYj6NAd5TF6zyg5Mz44UcnT3/RxQUMzb5EAB4sgB2IhJdtZdIUBSZjheuJq9RqPSnuU6KzHra7/7QD7fOxe9gB0ROKF5Igqno\
          gMcRJlwniRMUHamDQYVNTKqooEfZgCNjENASyqUw0qpq00A8VBTxoyJzvtn8mJztLx6uHQYYu7xshqrEYPY07po3rAMTqM1AUJNo8ghg9\
          Nxs8qy9OAgCN/L3JdCELAy0j7bsw5mLF5wLcFZIF/viRXPA65s22TLJEPRLy5 x"
            .as_slice();
    assert!(rt; !is_read(rt.alloc(), line));
}

#[test]
fn an_exponent_of_2_is_refused(rt: HostRuntime) {
    let line =
        b"ssh-rsa AAAAB3NzaC1yc2EAAAABAgAAAQEAt1FfpIFbgI5+FwFBhHQDKp0a90Cu6oKMQ4liZxV8ZFquN6E6YMEWGAOxuO+Q0ruTflaBG\
          +GLyb5b+YGGI+jQHeUxes8oOTM+OFHJ09/0cUFDM2+RAAeLIAdiISXbWXSFAUmY4XriavUaj0p7lOisx62u/+0A+3zsXvYAdETiheSIKp\
          6IDHESZcJ4kTFB2pg0GFTUyqqKBH2YAjYxDQEsqlMNKqatNAPFQU8aMic77Z/Jic7S8erh0GGLu8bIaqxGD2NO6aN6wDE6jNQFCTaPIIY\
          PTcbPKsvTgIAjfy9yXQhCwMtI+27MOZixecC3BWSBf74kVzwOubNtkyyRD0S8uQ== x"
            .as_slice();
    assert!(rt; !is_read(rt.alloc(), line));
}

#[test]
fn a_modulus_below_zero_is_refused(rt: HostRuntime) {
    let line =
        b"ssh-rsa AAAAB3NzaC1yc2EAAAADAQABAAABALdRX6SBW4COfhcBQYR0AyqdGvdAruqCjEOJYmcVfGRarjehOmDBFhgDsbjvkNK7k35Wg\
          Rvhi8m+W/mBhiPo0B3lMXrPKDkzPjhRydPf9HFBQzNvkQAHiyAHYiEl21l0hQFJmOF64mr1Go9Ke5TorMetrv/tAPt87F72AHRE4oXkiC\
          qeiAxxEmXCeJExQdqYNBhU1MqqigR9mAI2MQ0BLKpTDSqmrTQDxUFPGjInO+2fyYnO0vHq4dBhi7vGyGqsRg9jTumjesAxOozUBQk2jyC\
          GD03GzyrL04CAI38vcl0IQsDLSPtuzDmYsXnAtwVkgX++JFc8DrmzbZMskQ9EvLk= x"
            .as_slice();
    assert!(rt; !is_read(rt.alloc(), line));
}

#[test]
fn an_empty_application_is_refused(rt: HostRuntime) {
    let line =
        b"sk-ssh-ed25519@openssh.com AAAAGnNrLXNzaC1lZDI1NTE5QG9wZW5zc2guY29tAAAAIAl6NEM+jOkYWFjPbm/j85LeLAeBK/EDkd\
          9WgxPynZCLAAAAAA== x"
            .as_slice();
    assert!(rt; !is_read(rt.alloc(), line));
}

#[test]
fn an_application_of_the_web_is_refused(rt: HostRuntime) {
    let line =
        b"sk-ssh-ed25519@openssh.com AAAAGnNrLXNzaC1lZDI1NTE5QG9wZW5zc2guY29tAAAAIAl6NEM+jOkYWFjPbm/j85LeLAeBK/EDkd\
          9WgxPynZCLAAAACWh0dHBzOi8veA== x"
            .as_slice();
    assert!(rt; !is_read(rt.alloc(), line));
}

#[test]
fn a_security_key_of_31_bytes_is_refused(rt: HostRuntime) {
    let line =
        b"sk-ssh-ed25519@openssh.com AAAAGnNrLXNzaC1lZDI1NTE5QG9wZW5zc2guY29tAAAAHwl6NEM+jOkYWFjPbm/j85LeLAeBK/EDkd\
          9WgxPynZAAAAAEc3NoOg== x"
            .as_slice();
    assert!(rt; !is_read(rt.alloc(), line));
}

#[test]
fn a_string_more_is_refused(rt: HostRuntime) {
    let line =
        b"sk-ssh-ed25519@openssh.com AAAAGnNrLXNzaC1lZDI1NTE5QG9wZW5zc2guY29tAAAAIAl6NEM+jOkYWFjPbm/j85LeLAeBK/EDkd\
          9WgxPynZCLAAAABHNzaDoAAAABeA== x"
            .as_slice();
    assert!(rt; !is_read(rt.alloc(), line));
}

#[test]
fn a_compressed_point_is_refused(rt: HostRuntime) {
    let line =
        b"ecdsa-sha2-nistp256 AAAAE2VjZHNhLXNoYTItbmlzdHAyNTYAAAAIbmlzdHAyNTYAAAAhAm+iGUuJT5bHO92U5yRyqPDpHHIs9zzc3\
          KVgHvlr0jTX x"
            .as_slice();
    assert!(rt; !is_read(rt.alloc(), line));
}

#[test]
fn a_hybrid_point_is_refused(rt: HostRuntime) {
    let line =
        b"ecdsa-sha2-nistp256 AAAAE2VjZHNhLXNoYTItbmlzdHAyNTYAAAAIbmlzdHAyNTYAAABBBm+iGUuJT5bHO92U5yRyqPDpHHIs9zzc3\
          KVgHvlr0jTX1drSa3hTzxBBNZbm+DAI2fAlx1Tvoo95hCkwJXnaOJg= x"
            .as_slice();
    assert!(rt; !is_read(rt.alloc(), line));
}

#[test]
fn the_point_at_infinity_is_refused(rt: HostRuntime) {
    let line =
        b"ecdsa-sha2-nistp256 AAAAE2VjZHNhLXNoYTItbmlzdHAyNTYAAAAIbmlzdHAyNTYAAAABAA== x".as_slice();
    assert!(rt; !is_read(rt.alloc(), line));
}

#[test]
fn the_name_of_another_curve_is_refused(rt: HostRuntime) {
    let line =
        b"ecdsa-sha2-nistp256 AAAAE2VjZHNhLXNoYTItbmlzdHAyNTYAAAAIbmlzdHAzODQAAABhBCdI6qAyfvZo83zOtW4SnBV2tO2ixKRyd\
          x9/gnpD90EzFz7kX8ufwaxyZud3NEZVYi6cojRCZpun/hodk2ws3gVvD6pHFRPAfKF9H6Gsk2Q4heBYD9qlH9pJCOTWyxm5Qg== x"
            .as_slice();
    assert!(rt; !is_read(rt.alloc(), line));
}

#[test]
fn a_point_of_another_curve_is_refused(rt: HostRuntime) {
    let line =
        b"ecdsa-sha2-nistp256 AAAAE2VjZHNhLXNoYTItbmlzdHAyNTYAAAAIbmlzdHAyNTYAAABhBCdI6qAyfvZo83zOtW4SnBV2tO2ixKRyd\
          x9/gnpD90EzFz7kX8ufwaxyZud3NEZVYi6cojRCZpun/hodk2ws3gVvD6pHFRPAfKF9H6Gsk2Q4heBYD9qlH9pJCOTWyxm5Qg== x"
            .as_slice();
    assert!(rt; !is_read(rt.alloc(), line));
}

#[test]
fn a_type_that_the_blob_has_not_is_refused(rt: HostRuntime) {
    let line =
        b"ecdsa-sha2-nistp384 AAAAE2VjZHNhLXNoYTItbmlzdHAyNTYAAAAIbmlzdHAyNTYAAABBBG+iGUuJT5bHO92U5yRyqPDpHHIs9zzc3\
          KVgHvlr0jTX1drSa3hTzxBBNZbm+DAI2fAlx1Tvoo95hCkwJXnaOJg= x"
            .as_slice();
    assert!(rt; !is_read(rt.alloc(), line));
}

#[test]
fn bytes_after_the_modulus_is_refused(rt: HostRuntime) {
    let line =
        b"ssh-rsa AAAAB3NzaC1yc2EAAAADAQABAAABAQC3UV+kgVuAjn4XAUGEdAMqnRr3QK7qgoxDiWJnFXxkWq43oTpgwRYYA7G475DSu5N+V\
          oEb4YvJvlv5gYYj6NAd5TF6zyg5Mz44UcnT3/RxQUMzb5EAB4sgB2IhJdtZdIUBSZjheuJq9RqPSnuU6KzHra7/7QD7fOxe9gB0ROKF5I\
          gqnogMcRJlwniRMUHamDQYVNTKqooEfZgCNjENASyqUw0qpq00A8VBTxoyJzvtn8mJztLx6uHQYYu7xshqrEYPY07po3rAMTqM1AUJNo8\
          ghg9Nxs8qy9OAgCN/L3JdCELAy0j7bsw5mLF5wLcFZIF/viRXPA65s22TLJEPRLy5AAAAAA== x"
            .as_slice();
    assert!(rt; !is_read(rt.alloc(), line));
}
