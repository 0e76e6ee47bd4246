//! Fifty heads that real clients send.
use super::outcomes::{Row, pass_heads};
use std::test::Fail;

const CLIENTS: [Row; 25] = [
    (
        "GET /index.html HTTP/1.1\r\nHost: 127.0.0.1:8080\r\nUser-Agent: curl/8.5.0\r\nAccept: */*\r\n\r\n",
        "index.html",
    ),
    (
        "HEAD / HTTP/1.1\r\nHost: example.org\r\nUser-Agent: curl/7.88.1\r\nAccept: */*\r\n\r\n",
        "index.html head",
    ),
    (
        "GET /a HTTP/1.0\r\nHost: localhost:8080\r\nUser-Agent: curl/8.5.0\r\nAccept: */*\r\n\r\n",
        "a close 1.0",
    ),
    (
        "GET http://example.org/a?b=c HTTP/1.1\r\nHost: example.org\r\n\
            User-Agent: curl/8.5.0\r\nAccept: */*\r\nProxy-Connection: Keep-Alive\r\n\r\n",
        "a?b=c",
    ),
    (
        "POST /form HTTP/1.1\r\nHost: example.org\r\nUser-Agent: curl/8.5.0\r\n\
            Accept: */*\r\nContent-Length: 3\r\nContent-Type: application/x-www-form-urlencoded\r\n\
            \r\n",
        "400 close",
    ),
    (
        "PUT /up HTTP/1.1\r\nHost: example.org\r\nUser-Agent: curl/8.5.0\r\nAccept: */*\r\n\
            Transfer-Encoding: chunked\r\nExpect: 100-continue\r\n\r\n",
        "400 close",
    ),
    (
        "DELETE /a HTTP/1.1\r\nHost: example.org\r\nUser-Agent: curl/8.5.0\r\nAccept: */*\r\n\r\n",
        "405",
    ),
    (
        "OPTIONS * HTTP/1.1\r\nHost: example.org\r\nUser-Agent: curl/8.5.0\r\nAccept: */*\r\n\r\n",
        "405",
    ),
    (
        "GET /old HTTP/1.1\r\nHost: example.org\r\nUser-Agent: Wget/1.21.4\r\nAccept: */*\r\n\
            Accept-Encoding: identity\r\nConnection: Keep-Alive\r\n\r\n",
        "old",
    ),
    (
        "GET /dir/ HTTP/1.0\r\nUser-Agent: Wget/1.11.4\r\nAccept: */*\r\n\
            Host: example.org\r\nConnection: Keep-Alive\r\n\r\n",
        "dir/ close 1.0",
    ),
    (
        "GET / HTTP/1.0\r\nHost: 127.0.0.1:8080\r\nUser-Agent: ApacheBench/2.3\r\nAccept: */*\r\n\r\n",
        "index.html close 1.0",
    ),
    (
        "GET /f HTTP/1.0\r\nConnection: Keep-Alive\r\nHost: 127.0.0.1:8080\r\n\
            User-Agent: ApacheBench/2.3\r\nAccept: */*\r\n\r\n",
        "f close 1.0",
    ),
    (
        "HEAD / HTTP/1.0\r\nHost: 127.0.0.1:8080\r\nUser-Agent: ApacheBench/2.3\r\nAccept: */*\r\n\r\n",
        "index.html head close 1.0",
    ),
    (
        "GET / HTTP/1.1\r\nHost: 127.0.0.1:8080\r\nUser-Agent: wrk\r\n\r\n",
        "index.html",
    ),
    (
        "GET / HTTP/1.1\r\nHost: localhost:8080\r\n\r\n",
        "index.html",
    ),
    (
        "GET / HTTP/1.1\r\nHost: localhost:8080\r\nUser-Agent: hey/0.0.1\r\n\
            Content-Type: text/html\r\nAccept-Encoding: gzip\r\n\r\n",
        "index.html",
    ),
    (
        "GET /a HTTP/1.1\r\nHost: example.org\r\nAccept: */*\r\n\
            Accept-Encoding: gzip, deflate\r\n\
            User-Agent: Mozilla/5.0 (pc-x86_64-linux-gnu) Siege/4.0.7\r\nConnection: close\r\n\r\n",
        "a close",
    ),
    (
        "GET /health HTTP/1.1\r\nHost: 10.244.0.7:8080\r\nUser-Agent: kube-probe/1.29\r\n\
            Accept: */*\r\nConnection: close\r\n\r\n",
        "health close",
    ),
    (
        "GET / HTTP/1.1\r\nHost: 10.0.0.12:80\r\nConnection: close\r\n\
            User-Agent: ELB-HealthChecker/2.0\r\nAccept-Encoding: gzip, compressed\r\n\r\n",
        "index.html close",
    ),
    ("OPTIONS / HTTP/1.0\r\n\r\n", "405 close"),
    (
        "GET /metrics HTTP/1.1\r\nHost: node:9100\r\nUser-Agent: Prometheus/2.51.0\r\n\
            Accept: application/openmetrics-text;version=1.0.0;q=0.5,text/plain;version=0.0.4;q=0.4,*/*;q=0.1\r\n\
            Accept-Encoding: gzip\r\nX-Prometheus-Scrape-Timeout-Seconds: 10\r\n\r\n",
        "metrics",
    ),
    (
        "GET /v1/items?page=2 HTTP/1.1\r\nHost: api.example.org\r\n\
            User-Agent: python-requests/2.31.0\r\nAccept-Encoding: gzip, deflate\r\nAccept: */*\r\n\
            Connection: keep-alive\r\n\r\n",
        "v1/items?page=2",
    ),
    (
        "GET /x HTTP/1.1\r\nAccept-Encoding: identity\r\nHost: example.org\r\n\
            User-Agent: Python-urllib/3.11\r\nConnection: close\r\n\r\n",
        "x close",
    ),
    (
        "GET / HTTP/1.1\r\nHost: example.org\r\nUser-Agent: Go-http-client/1.1\r\nAccept-Encoding: gzip\r\n\r\n",
        "index.html",
    ),
    (
        "GET /a HTTP/1.1\r\nUser-Agent: Java/17.0.9\r\nHost: example.org\r\n\
            Accept: text/html, image/gif, image/jpeg, */*; q=0.2\r\nConnection: keep-alive\r\n\r\n",
        "a",
    ),
];

const BROWSERS_AND_OTHERS: [Row; 25] = [
    (
        "GET /a HTTP/1.1\r\nHost: example.org\r\nConnection: Keep-Alive\r\n\
            User-Agent: Apache-HttpClient/4.5.14 (Java/17.0.9)\r\nAccept-Encoding: gzip,deflate\r\n\
            \r\n",
        "a",
    ),
    (
        "GET /a HTTP/1.1\r\nHost: example.org\r\nConnection: Keep-Alive\r\n\
            Accept-Encoding: gzip\r\nUser-Agent: okhttp/4.12.0\r\n\r\n",
        "a",
    ),
    (
        "GET /a HTTP/1.1\r\nAccept: application/json, text/plain, */*\r\n\
            User-Agent: axios/1.6.8\r\nAccept-Encoding: gzip, compress, deflate, br\r\n\
            Host: localhost:3000\r\nConnection: keep-alive\r\n\r\n",
        "a",
    ),
    (
        "GET /a HTTP/1.1\r\nhost: localhost:3000\r\nconnection: keep-alive\r\naccept: */*\r\n\
            accept-language: *\r\nsec-fetch-mode: cors\r\nuser-agent: node\r\n\
            accept-encoding: gzip, deflate\r\n\r\n",
        "a",
    ),
    (
        "GET /a HTTP/1.1\r\naccept: */*\r\nhost: example.org\r\n\r\n",
        "a",
    ),
    (
        "GET /a HTTP/1.1\r\nAccept-Encoding: gzip;q=1.0,deflate;q=0.6,identity;q=0.3\r\n\
            Accept: */*\r\nUser-Agent: Ruby\r\nHost: example.org\r\n\r\n",
        "a",
    ),
    (
        "GET /feed.xml HTTP/1.0\r\nHost: example.org\r\nConnection: close\r\n\r\n",
        "feed.xml close 1.0",
    ),
    (
        "GET /a HTTP/1.1\r\nUser-Agent: HTTPie/3.2.2\r\nAccept-Encoding: gzip, deflate\r\n\
            Accept: */*\r\nConnection: keep-alive\r\nHost: pie.dev\r\n\r\n",
        "a",
    ),
    (
        "GET /a HTTP/1.1\r\nUser-Agent: PostmanRuntime/7.37.0\r\nAccept: */*\r\n\
            Cache-Control: no-cache\r\nPostman-Token: 5a1e\r\nHost: localhost\r\n\
            Accept-Encoding: gzip, deflate, br\r\nConnection: keep-alive\r\n\r\n",
        "a",
    ),
    (
        "GET / HTTP/1.1\r\nHost: example.org\r\nConnection: keep-alive\r\n\
            sec-ch-ua: \"Chromium\";v=\"124\", \"Not-A.Brand\";v=\"99\"\r\nsec-ch-ua-mobile: ?0\r\n\
            Upgrade-Insecure-Requests: 1\r\n\
            User-Agent: Mozilla/5.0 (X11; Linux x86_64) AppleWebKit/537.36 (KHTML, like Gecko) Chrome/124.0.0.0 \
            Safari/537.36\r\n\
            Accept: text/html,application/xhtml+xml,application/xml;q=0.9,image/avif,image/webp,*/*;q=0.8\r\n\
            Sec-Fetch-Site: none\r\nSec-Fetch-Mode: navigate\r\nAccept-Encoding: gzip, deflate\r\n\
            Accept-Language: en-US,en;q=0.9\r\n\r\n",
        "index.html",
    ),
    (
        "GET /favicon.ico HTTP/1.1\r\nHost: localhost:8080\r\nConnection: keep-alive\r\n\
            Accept: image/avif,image/webp,image/apng,image/svg+xml,image/*,*/*;q=0.8\r\n\
            Referer: http://localhost:8080/\r\n\r\n",
        "favicon.ico",
    ),
    (
        "GET / HTTP/1.1\r\nHost: example.org\r\n\
            User-Agent: Mozilla/5.0 (X11; Linux x86_64; rv:125.0) Gecko/20100101 Firefox/125.0\r\n\
            Accept: text/html,application/xhtml+xml,*/*;q=0.8\r\n\
            Accept-Language: en-US,en;q=0.5\r\nAccept-Encoding: gzip, deflate\r\nDNT: 1\r\n\
            Connection: keep-alive\r\nCookie: id=7; t=\"a b\"\r\nIf-None-Match: \"33a64df5\"\r\n\r\n",
        "index.html",
    ),
    (
        "GET /caf%C3%A9%20au%20lait.txt HTTP/1.1\r\nHost: example.org\r\n\
            Accept: text/html\r\n\
            User-Agent: Mozilla/5.0 (Macintosh; Intel Mac OS X 10_15_7) AppleWebKit/605.1.15 (KHTML, like Gecko) \
            Version/17.4 Safari/605.1.15\r\n\
            Connection: keep-alive\r\n\r\n",
        "caf\u{e9} au lait.txt",
    ),
    (
        "GET /s?q=%E2%9C%93&x=/../y HTTP/1.1\r\nHost: example.org\r\n\
            Connection: keep-alive\r\n\
            User-Agent: Mozilla/5.0 (Windows NT 10.0; Win64; x64) Edg/124.0.0.0\r\n\r\n",
        "s?q=%E2%9C%93&x=/../y",
    ),
    (
        "GET /film.mp4 HTTP/1.1\r\nHost: example.org\r\nConnection: keep-alive\r\n\
            Range: bytes=0-\r\nAccept-Encoding: identity;q=1, *;q=0\r\n\r\n",
        "film.mp4 0-",
    ),
    (
        "GET /film.mp4 HTTP/1.1\r\nHost: example.org\r\nX-Playback-Session-Id: 1\r\n\
            Range: bytes=0-1\r\nAccept: */*\r\nUser-Agent: AppleCoreMedia/1.0.0.21E236\r\n\
            Connection: keep-alive\r\n\r\n",
        "film.mp4 0-1",
    ),
    (
        "GET /big.iso HTTP/1.1\r\nHost: example.org\r\nRange: bytes=1048576-\r\n\
            User-Agent: Wget/1.21.4\r\nAccept: */*\r\nAccept-Encoding: identity\r\n\
            Connection: Keep-Alive\r\n\r\n",
        "big.iso 1048576-",
    ),
    (
        "GET /big.iso HTTP/1.1\r\nHost: example.org\r\nRange: bytes=-500\r\n\
            User-Agent: curl/8.5.0\r\nAccept: */*\r\n\r\n",
        "big.iso -500",
    ),
    (
        "GET /p.pdf HTTP/1.1\r\nHost: example.org\r\nRange: bytes=0-1,100-199\r\nAccept: */*\r\n\r\n",
        "p.pdf",
    ),
    (
        "GET /big.iso HTTP/1.1\r\nHost: example.org\r\nRange: bytes=10-\r\n\
            If-Range: \"abc\"\r\nAccept: */*\r\n\r\n",
        "big.iso",
    ),
    (
        "GET /chat HTTP/1.1\r\nHost: localhost:8080\r\nConnection: keep-alive, Upgrade\r\n\
            Upgrade: websocket\r\nSec-WebSocket-Version: 13\r\n\
            Sec-WebSocket-Key: dGhlIHNhbXBsZSBub25jZQ==\r\n\r\n",
        "chat",
    ),
    (
        "PROPFIND / HTTP/1.1\r\nHost: dav\r\nDepth: 1\r\nUser-Agent: gvfs/1.52.0\r\nContent-Length: 0\r\n\r\n",
        "501",
    ),
    (
        "GET /robots.txt HTTP/1.1\r\nHost: example.org\r\nConnection: keep-alive\r\n\
            Accept: text/plain,text/html\r\nFrom: googlebot(at)googlebot.com\r\n\
            User-Agent: Mozilla/5.0 (compatible; Googlebot/2.1; +http://www.google.com/bot.html)\r\n\
            Accept-Encoding: gzip, deflate, br\r\n\r\n",
        "robots.txt",
    ),
    (
        "GET / HTTP/1.0\r\nHost: example.org\r\n\
            Accept: text/html, text/plain, text/sgml, text/css\r\n\
            Accept-Encoding: gzip, compress, bzip2\r\nAccept-Language: en\r\n\
            User-Agent: Lynx/2.9.0\r\n\r\n",
        "index.html close 1.0",
    ),
    (
        "GET /run.cgi?n=1 HTTP/1.1\r\nHost: [::1]:8080\r\nUser-Agent: curl/8.5.0\r\n\
            Range: bytes=0-9\r\nAccept: */*\r\n\r\n",
        "run.cgi?n=1",
    ),
];

#[test]
fn heads_of_clients(rt: HostRuntime) -> Result<(), Fail> {
    pass_heads(rt.alloc(), &CLIENTS)?;
    pass_heads(rt.alloc(), &BROWSERS_AND_OTHERS)
}
